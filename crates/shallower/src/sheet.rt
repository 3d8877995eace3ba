// The shallower sheet itself.
ghost use Rattle.std.specs.Prelude.{◌≡◌};
ghost use Rattle.rules.specs.Calls.Shallower.{which_of};
ghost use Rattle.shallower.specs.Which.{handed};

use crate::which;
use crate::which::Which;

// Returns one of the two lent sheets: the shallower one, the first if they have equally many layers, or an empty part of the first if neither can be
// read. The caller may pass any bytes.
pub fn shallower<'a>(first: &'a [u8], second: &'a [u8]) -> &'a [u8]
    ensures { (result.ref_ptr, result.now) ≡ handed (which_of first.now second.now) first.entry second.entry }
{
    let chosen = which::which_of(first, second);
    match chosen {
        Which::First => first,
        Which::Second => second,
        Which::Neither => &first[0..0],
    }
}
