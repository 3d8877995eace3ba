// What a program prints: the sheet that its call wrote, or the two lines of the refusal.
ghost use Rattle.std.specs.Prelude.{◌≤◌, length};
ghost use Rattle.rules.specs.Limits.{most_read};
ghost use Rattle.rules.specs.Calls.Programs.{program_output, settle_program, make_program};
ghost use Rattle.rules.specs.Calls.Tidying.{tidy_program};
ghost use Rattle.programs.specs.Prints.{Prints};
ghost use Rattle.settling.specs.Answered.{plain_by};

use crate::input::{first_read, front};
use crate::refusal::{Numbered, print_refusal};
use loose_sheets::tidy::tidy;
use marks::packing;
use net_sheets::text::put::copy;
use radix::limits;
use settling::calls;

// The first `length` bytes are the text; the rest are zeros.
#[derive(Drop)]
pub struct Printed {
    pub bytes: [u8; limits::MOST_READ],
    pub length: usize,
}

// Returns what a program prints for its call's answer and output, whatever the number and the place of a refusal.
pub fn output_of<R: Numbered>(answer: Result<usize, R>, out: &[u8]) -> Printed
    requires { length out.now ≤ most_read }
    ensures { Prints result.bytes result.length (program_output (plain_by R.number R.place answer) out.now) }
{
    let mut bytes = [0u8; limits::MOST_READ];
    match answer {
        Ok(count) => {
            let length = copy(front(out, count), &mut bytes, 0);
            Printed { bytes, length }
        }
        Err(refusal) => {
            let (number, place) = refusal.number_and_place();
            let length = print_refusal(number, place, &mut bytes);
            Printed { bytes, length }
        }
    }
}

// Returns what the program `settle` prints for the input s.
pub fn settle_output(s: &[u8]) -> Printed
    ensures { Prints result.bytes result.length (settle_program s.now) }
{
    let mut cells = [0u8; limits::MOST_CELLS];
    let mut marks = [0u8; packing::MOST_MARKS];
    let mut out = [0u8; limits::MOST_SETTLED];
    let answer = calls::settle(first_read(s), &mut cells, &mut marks, &mut out);
    output_of(answer, &out)
}

// Returns what the program `make` prints for the input s.
pub fn make_output(s: &[u8]) -> Printed
    ensures { Prints result.bytes result.length (make_program s.now) }
{
    let mut cells = [0u8; limits::MOST_CELLS];
    let mut marks = [0u8; packing::MOST_MARKS];
    let mut out = [0u8; limits::MOST_SETTLED];
    let answer = calls::make(first_read(s), &mut cells, &mut marks, &mut out);
    output_of(answer, &out)
}

// Returns what the program `tidy` prints for the input s.
pub fn tidy_output(s: &[u8]) -> Printed
    ensures { Prints result.bytes result.length (tidy_program s.now) }
{
    let mut cells = [0u8; limits::MOST_CELLS];
    let mut out = [0u8; limits::MOST_READ];
    let answer = tidy(first_read(s), &mut cells, &mut out);
    output_of(answer, &out)
}
