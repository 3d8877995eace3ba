// Settling for C.
ghost use Rattle.rules.specs.Calls.Settling.{settle_call};
ghost use Rattle.capi.specs.Made.{FlatMade};

use crate::numbers::flat::SitgurpAnswer;

// Settles a net sheet: writes its table, its marks and its settled net sheet. Returns the sheet's length.
#[unsafe(no_mangle)]
pub extern "C" fn sitgurp_settle(
    sheet: &[u8],
    cells: &mut [u8],
    marks: &mut [u8],
    out: &mut [u8],
) -> SitgurpAnswer
    ensures { FlatMade (settle_call sheet.now cells.old marks.old out.old)
        result cells.new marks.new out.new }
{
    SitgurpAnswer::from(settling::calls::settle(sheet, cells, marks, out))
}
