// The marking call for C.
ghost use Rattle.rules.specs.Calls.Marking.{marking_call};
ghost use Rattle.capi.specs.Marking.{FlatMarked};

use crate::numbers::flat::SitgurpAnswer;

// Writes the marks of every group of bare cells to `marks`, and returns the whole group's mark.
#[unsafe(no_mangle)]
pub extern "C" fn sitgurp_marking(
    m: usize,
    n: usize,
    cells: &[u8],
    marks: &mut [u8],
) -> SitgurpAnswer
    ensures { FlatMarked (marking_call m n cells.now marks.old) result marks.new }
{
    SitgurpAnswer::from(marks::marking::marking(m, n, cells, marks))
}
