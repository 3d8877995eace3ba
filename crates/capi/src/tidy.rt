// Tidying for C.
ghost use Rattle.rules.specs.Calls.Tidying.{tidy_call};
ghost use Rattle.capi.specs.Tidy.{FlatTidied};

use crate::numbers::flat::SitgurpAnswer;

// Writes the table sheet of a loose table sheet, and its inks. Returns the sheet's length.
#[unsafe(no_mangle)]
pub extern "C" fn sitgurp_tidy(sheet: &[u8], cells: &mut [u8], out: &mut [u8]) -> SitgurpAnswer
    ensures { FlatTidied (tidy_call sheet.now cells.old out.old) result cells.new out.new }
{
    SitgurpAnswer::from(loose_sheets::tidy::tidy(sheet, cells, out))
}
