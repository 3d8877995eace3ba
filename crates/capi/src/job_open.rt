// Opens a job for C. The caller owns the job, and lends its parts; include/sitgurp.h has them in one struct.
ghost use Rattle.capi.specs.JobOpen.{FlatOpened};

use crate::numbers::flat::SitgurpAnswer;
use jobs::{job, opening};
use marks::own;
use radix::limits;

// Opens a job on a table sheet. The job is empty if the sheet is refused. Number 0: accepted, with value 0.
#[unsafe(no_mangle)]
pub extern "C" fn sitgurp_job_open_parts(
    sheet: &[u8],
    lines: &mut [u8; job::MOST_LINES],
    cells: &mut [u8; limits::MOST_CELLS],
    marks: &mut [u8; own::MOST_GROUPS],
    passed: &mut usize,
) -> SitgurpAnswer
    ensures { FlatOpened sheet.now result lines.new cells.new marks.new passed.new }
{
    let opened = opening::open(sheet);
    let outcome = opened.outcome;
    let new = opened.job;
    let own_lines = new.lines;
    let own_cells = new.cells;
    let own_marks = new.marks;
    *lines = own_lines;
    *cells = own_cells;
    *marks = own_marks;
    *passed = new.passed;
    SitgurpAnswer::from(outcome)
}
