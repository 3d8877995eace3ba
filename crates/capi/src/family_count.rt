// The count of a table's trees for C.
ghost use Rattle.rules.specs.Calls.FamilyCalls.{family_count_call};
ghost use Rattle.capi.specs.Counted.{FlatCounted};

use crate::numbers::flat::SitgurpAnswer;

// Returns how many trees the table of a table sheet has, and writes the cells and the marks.
#[unsafe(no_mangle)]
pub extern "C" fn sitgurp_family_count(
    sheet: &[u8],
    cells: &mut [u8],
    marks: &mut [u8],
) -> SitgurpAnswer
    ensures { FlatCounted (family_count_call sheet.now cells.old marks.old) result cells.new marks.new }
{
    SitgurpAnswer::from(families::count::family_count(sheet, cells, marks))
}
