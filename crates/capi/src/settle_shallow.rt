// Settling of the shallow net for C.
ghost use Rattle.rules.specs.Calls.ShallowSettling.{settle_shallow_call};
ghost use Rattle.capi.specs.Layered.{FlatLayered};

use crate::numbers::layered::SitgurpShallow;

// Settles a net sheet to its shallow net sheet, with the buffers of sitgurp_settle.
#[unsafe(no_mangle)]
pub extern "C" fn sitgurp_settle_shallow(
    sheet: &[u8],
    cells: &mut [u8],
    marks: &mut [u8],
    out: &mut [u8],
) -> SitgurpShallow
    ensures { FlatLayered (settle_shallow_call sheet.now cells.old marks.old out.old)
        result cells.new marks.new out.new }
{
    SitgurpShallow::from(settling::shallow::settle_shallow(sheet, cells, marks, out))
}
