// The multiplicity call for C.
ghost use Rattle.std.specs.Prelude.{◌≡◌};
ghost use Rattle.rules.specs.Calls.Multiplicity.{multiplicity_call};
ghost use Rattle.capi.specs.Numbers.Flat.{flat_of};

use crate::numbers::flat::SitgurpAnswer;

// Returns the multiplicity of a group of bare cells.
#[unsafe(no_mangle)]
pub extern "C" fn sitgurp_multiplicity(
    m: usize,
    n: usize,
    cells: &[u8],
    group: usize,
) -> SitgurpAnswer
    ensures { result ≡ flat_of (multiplicity_call m n cells.now group) }
{
    SitgurpAnswer::from(classes::multiplicity::multiplicity(m, n, cells, group))
}
