// A step of a job for C, by its parts.
ghost use Rattle.capi.specs.JobStep.{FlatStepped};

use crate::numbers::flat::SitgurpAnswer;
use answers::refusal::Kind;
use jobs::{job, next};
use marks::own;
use radix::limits;

// Marks the next group of a job, or returns refusal 21.
#[unsafe(no_mangle)]
pub extern "C" fn sitgurp_job_step_parts(
    lines: &[u8; job::MOST_LINES],
    cells: &[u8; limits::MOST_CELLS],
    marks: &mut [u8; own::MOST_GROUPS],
    passed: &mut usize,
) -> SitgurpAnswer
    ensures { FlatStepped lines.now cells.now marks.old passed.old result marks.new
        passed.new }
{
    let before = *passed;
    let found = next::next_mark(lines, cells, marks, before);
    match found {
        None => SitgurpAnswer {
            number: Kind::JobDone.number(),
            value: 0,
        },
        Some(mark) => {
            let g = before + 1;
            marks[g] = mark;
            *passed = g;
            SitgurpAnswer {
                number: 0,
                value: 0,
            }
        }
    }
}
