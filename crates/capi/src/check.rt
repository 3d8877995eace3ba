// Checking for C.
ghost use Rattle.rules.specs.Calls.Checking.{check_call};
ghost use Rattle.capi.specs.Check.{FlatChecked};

use crate::numbers::verdict::SitgurpVerdict;

// Checks a net sheet against a table sheet, and puts the table sheet's inks in the cells buffer.
#[unsafe(no_mangle)]
pub extern "C" fn sitgurp_check(net: &[u8], table: &[u8], cells: &mut [u8]) -> SitgurpVerdict
    ensures { FlatChecked (check_call net.now table.now cells.old) result cells.new }
{
    SitgurpVerdict::from(checking::check::check(net, table, cells))
}
