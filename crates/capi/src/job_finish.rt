// Finishing a job for C, by its parts.
ghost use Rattle.std.specs.Prelude.{List, ℕ};
ghost use Rattle.rules.specs.Calls.Jobs.{finish_job};
ghost use Rattle.jobs.specs.Forms.{job_in};
ghost use Rattle.capi.specs.Made.{FlatMade};

use crate::numbers::flat::SitgurpAnswer;
use jobs::{finishing, job};
use radix::limits;

// Returns what making returns for the job's own table, with the cells `own`; or refusal 9, 10, 27 or 22.
#[unsafe(no_mangle)]
pub extern "C" fn sitgurp_job_finish_parts(
    lines: &[u8; job::MOST_LINES],
    own: &[u8; limits::MOST_CELLS],
    passed: usize,
    cells: &mut [u8],
    marks: &mut [u8],
    out: &mut [u8],
) -> SitgurpAnswer
    ensures { (own_marks : List ℕ)
        → FlatMade (finish_job (job_in lines.now own.now own_marks passed) cells.old marks.old
        out.old).made
        result cells.new marks.new out.new }
{
    SitgurpAnswer::from(finishing::finish_in(lines, own, passed, cells, marks, out))
}
