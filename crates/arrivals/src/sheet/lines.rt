// The lines of an arrival sheet, one for each input of a net sheet, in its order.
ghost use Rattle.std.specs.Prelude.{◌≡◌, ◌≤◌, drop};
ghost use Rattle.rules.specs.Text.{space_byte};
ghost use Rattle.rules.specs.Limits.{most_time};
ghost use Rattle.rules.specs.Sheets.Fields.{field};
ghost use Rattle.rules.specs.Sheets.ArrivalSheet.{next_name, arrival_line};
ghost use Rattle.nets.specs.Forms.{names_in};
ghost use Rattle.fields.specs.Header.FirstLines.{HeaderHeld};
ghost use Rattle.fields.specs.Steps.{step_as, nothing};
ghost use Rattle.arrivals.specs.Sheet.Line.{LineRest, from_from, from_to};
ghost use Rattle.arrivals.specs.Sheet.Lines.{LinesRead};

use crate::sheet::times::time_field;
use answers::refusal::{Kind, Refusal};
use fields::ends::{after_field, judged};
use fields::runs::{NEWLINE, SPACE, field_at};
use fields::same::same_bytes;
use fields::steps::Field;
use nets::forms::Header;
use nets::names::name_of;
use radix::limits::MOST_INPUTS;

// The two times of an input, in quarters of a microsecond.
#[derive(Clone, Copy)]
pub struct Span {
    pub from: u16,
    pub to: u16,
}

// A line that was read: its two times, and where the next line begins.
#[derive(Drop)]
pub struct LineRead {
    pub span: Span,
    pub next: usize,
}

// The lines that were read: the times of every input, and where the lines end.
#[derive(Drop)]
pub struct TimesRead {
    pub times: [Span; MOST_INPUTS],
    pub next: usize,
}

// Reads a field that must be the input's name.
pub fn next_name(s: &[u8], at: usize, name: &[u8]) -> Result<Field, Refusal>
    ensures { step_as nothing s.now result ≡ field (next_name name.now) space_byte (drop at s.now) at }
{
    let w = field_at(s, at);
    let verdict = judged(same_bytes(w, name), 0, Kind::ArrivalName);
    after_field(s, at, w, verdict, SPACE)
}

// Reads a line from its second time on.
fn from_to(s: &[u8], at: usize, from: usize) -> Result<LineRead, Refusal>
    requires { from ≤ most_time }
    ensures { LineRest s.now at (from_to from) result }
{
    let to = time_field(s, at, from, NEWLINE)?;
    Ok(LineRead {
        span: Span {
            from: from as u16,
            to: to.value as u16,
        },
        next: to.next,
    })
}

// Reads a line from its first time on.
fn from_from(s: &[u8], at: usize) -> Result<LineRead, Refusal>
    ensures { LineRest s.now at from_from result }
{
    let from = time_field(s, at, 0, SPACE)?;
    from_to(s, from.next, from.value)
}

// Reads the line of the input with this name.
pub fn arrival_line(s: &[u8], at: usize, name: &[u8]) -> Result<LineRead, Refusal>
    ensures { LineRest s.now at (arrival_line name.now) result }
{
    let field = next_name(s, at, name)?;
    from_from(s, field.next)
}

// Reads the lines of the arrival sheet s, starting at `at`, for the inputs of the net sheet `net`.
pub fn arrival_lines(net: &[u8], header: Header, s: &[u8], at: usize) -> Result<TimesRead, Refusal>
    requires { HeaderHeld net.now header }
    ensures { LinesRead (names_in net.now header) s.now at result }
{
    let none = Span { from: 0, to: 0 };
    let mut times = [none; MOST_INPUTS];
    let mut place = at;
    for i in 0..header.inputs {
        let line = arrival_line(s, place, name_of(net, header, i))?;
        times[i] = line.span;
        place = line.next;
    }
    Ok(TimesRead { times, next: place })
}
