// The gate lister for C.
ghost use Rattle.std.specs.Prelude.{◌≡◌};
ghost use Rattle.rules.specs.Calls.Lister.{listing};
ghost use Rattle.capi.specs.Numbers.Turn.{flat_turn};

use crate::numbers::turn::SitgurpTurn;

// Returns turn k of the gate lister, from 0.
#[unsafe(no_mangle)]
pub extern "C" fn sitgurp_gate_line(sheet: &[u8], k: usize) -> SitgurpTurn
    ensures { result ≡ flat_turn (listing sheet.now k) }
{
    SitgurpTurn::from(lister::calls::line(sheet, k))
}
