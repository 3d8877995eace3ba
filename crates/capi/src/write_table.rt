// Table writing for C.
ghost use Rattle.rules.specs.Calls.TableWriting.{write_table_call};
ghost use Rattle.capi.specs.WriteTable.{FlatWritten};

use crate::numbers::flat::SitgurpAnswer;

// Writes the table sheet of a net sheet. Returns its length.
#[unsafe(no_mangle)]
pub extern "C" fn sitgurp_write_table(sheet: &[u8], out: &mut [u8]) -> SitgurpAnswer
    ensures { FlatWritten (write_table_call sheet.now out.old) result out.new }
{
    SitgurpAnswer::from(table_printer::write::write_table(sheet, out))
}
