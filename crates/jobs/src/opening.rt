// Opening a job: its own copy of a table sheet's names and cells, with no group passed.
ghost use Rattle.std.specs.Prelude.{◌≡◌, ◌≤◌, length};
ghost use Rattle.rules.specs.Limits.{most_cells};
ghost use Rattle.nets.specs.Forms.{header_of, table_in};
ghost use Rattle.accepted.specs.Taken.{Given};
ghost use Rattle.jobs.specs.Opening.{OwnLines, lines_of, cells_of, new_bytes, no_bytes};
ghost use Rattle.jobs.specs.Calls.{OpenDone};

use crate::job;
use crate::job::{Job, Opened};
use marks::own;
use net_sheets::text::header;
use net_sheets::text::put::copy;
use nets::forms::Header;
use radix::{limits, powers};
use table_reader::full;

// Returns the empty job: its bytes are not a sheet's first lines.
fn no_job() -> Job
    ensures { result ≡ no_bytes }
{
    Job {
        lines: [0u8; job::MOST_LINES],
        cells: [0u8; limits::MOST_CELLS],
        marks: [0u8; own::MOST_GROUPS],
        passed: 0,
    }
}

// Returns the first lines up to the last name, with a space after each name.
fn own_lines(s: &[u8], h: Header) -> [u8; job::MOST_LINES]
    requires { OwnLines s.now h }
    ensures { result ≡ lines_of (header_of s.now h) }
{
    let mut lines = [0u8; job::MOST_LINES];
    let p = header::print_pair(b"levels inputs\n", h.levels, h.inputs, &mut lines, 0);
    header::print_names(s, h, h.inputs, &mut lines, p);
    lines
}

fn own_cells(inks: &[u8]) -> [u8; limits::MOST_CELLS]
    requires { length inks.now ≤ most_cells }
    ensures { result ≡ cells_of inks.now }
{
    let mut cells = [0u8; limits::MOST_CELLS];
    copy(inks, &mut cells, 0);
    cells
}

// Returns a job on the table `inks`, whose first three lines in the sheet s are `h`.
fn new_job(s: &[u8], h: Header, inks: &[u8]) -> Job
    requires { Given s.now h inks.now }
    ensures { result ≡ new_bytes (table_in s.now h inks.now) }
{
    Job {
        lines: own_lines(s, h),
        cells: own_cells(inks),
        marks: [0u8; own::MOST_GROUPS],
        passed: 0,
    }
}

pub fn open(s: &[u8]) -> Opened
    ensures { OpenDone s.now result }
{
    let mut inks = [0u8; limits::MOST_CELLS];
    match full::read_full(s, &mut inks) {
        Err(refusal) => Opened {
            job: no_job(),
            outcome: Err(refusal),
        },
        Ok(h) => {
            let count = powers::power(h.levels, h.inputs);
            Opened {
                job: new_job(s, h, &inks[0..count]),
                outcome: Ok(()),
            }
        }
    }
}
