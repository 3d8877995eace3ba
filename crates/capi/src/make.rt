// Making for C.
ghost use Rattle.rules.specs.Calls.Settling.{make_call};
ghost use Rattle.capi.specs.Made.{FlatMade};

use crate::numbers::flat::SitgurpAnswer;

// Makes the settled net sheet of a table sheet, with the buffers of sitgurp_settle.
#[unsafe(no_mangle)]
pub extern "C" fn sitgurp_make(
    sheet: &[u8],
    cells: &mut [u8],
    marks: &mut [u8],
    out: &mut [u8],
) -> SitgurpAnswer
    ensures { FlatMade (make_call sheet.now cells.old marks.old out.old)
        result cells.new marks.new out.new }
{
    SitgurpAnswer::from(settling::calls::make(sheet, cells, marks, out))
}
