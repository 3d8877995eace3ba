// Opening a gate lister, for C.
ghost use Rattle.std.specs.Prelude.{◌≡◌};
ghost use Rattle.lister.specs.Calls.{opening};
ghost use Rattle.capi.specs.Numbers.Flat.{flat_of};

use crate::numbers::flat::SitgurpAnswer;

// Returns the position of the first gate line, or the sheet's refusal.
#[unsafe(no_mangle)]
pub extern "C" fn sitgurp_lister_open(sheet: &[u8]) -> SitgurpAnswer
    ensures { result ≡ flat_of (opening sheet.now) }
{
    SitgurpAnswer::from(lister::calls::open(sheet))
}
