// Keeping a wiring for C.
ghost use Rattle.rules.specs.Calls.Keeping.{keep_call};
ghost use Rattle.capi.specs.Keep.{FlatKept};

use crate::numbers::kept::SitgurpKept;

// Fills the gates of a net sheet again for a table sheet, whose inks go to the cells buffer, and writes the sheet.
#[unsafe(no_mangle)]
pub extern "C" fn sitgurp_keep(
    net: &[u8],
    table: &[u8],
    cells: &mut [u8],
    output: &mut [u8],
) -> SitgurpKept
    ensures { FlatKept (keep_call net.now table.now cells.old output.old) result cells.new
        output.new }
{
    SitgurpKept::from(keeping::keep::keep(net, table, cells, output))
}
