// The tree of an order number for C.
ghost use Rattle.rules.specs.Calls.FamilyCalls.{family_tree_call};
ghost use Rattle.capi.specs.Made.{FlatMade};

use crate::numbers::flat::SitgurpAnswer;

// Makes the net sheet of one number among the trees of a table sheet, with the buffers of making.
#[unsafe(no_mangle)]
pub extern "C" fn sitgurp_family_tree(
    sheet: &[u8],
    number: u64,
    cells: &mut [u8],
    marks: &mut [u8],
    out: &mut [u8],
) -> SitgurpAnswer
    ensures { FlatMade (family_tree_call sheet.now number cells.old marks.old out.old)
        result cells.new marks.new out.new }
{
    SitgurpAnswer::from(families::tree::family_tree(sheet, number, cells, marks, out))
}
