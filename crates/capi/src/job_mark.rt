// Asks a job for a group's mark, for C, by its parts.
ghost use Rattle.std.specs.Prelude.{◌≡◌, List, ℕ};
ghost use Rattle.rules.specs.Calls.Jobs.{ask_job};
ghost use Rattle.jobs.specs.Forms.{job_in};
ghost use Rattle.capi.specs.Numbers.Reached.{flat_reached};

use crate::numbers::reached::SitgurpMark;
use jobs::{asking, job};
use marks::own;

// Returns the final mark of a group that has been passed, or that the group is not reached, or refusal 11.
#[unsafe(no_mangle)]
pub extern "C" fn sitgurp_job_mark_parts(
    lines: &[u8; job::MOST_LINES],
    marks: &[u8; own::MOST_GROUPS],
    passed: usize,
    group: usize,
) -> SitgurpMark
    ensures { (cells : List ℕ) → result ≡ flat_reached (ask_job (job_in lines.now cells marks.now passed) group).answer }
{
    SitgurpMark::from(asking::mark_in(lines, marks, passed, group))
}
