// The shallower of two net sheets for C.
ghost use Rattle.std.specs.Prelude.{◌≡◌};
ghost use Rattle.rules.specs.Calls.Shallower.{which_of};
ghost use Rattle.capi.specs.Shallower.{flat_which};

use shallower::which::{Which, which_of};

// Which 1: the first sheet, 2: the second, 0: an empty part of the first. `length` is the length of what is returned.
#[repr(C)]
#[derive(Drop)]
pub struct SitgurpWhich {
    pub which: usize,
    pub length: usize,
}

// Returns which of two net sheets has fewer layers, the first if they are equal; 0 if neither can be read.
#[unsafe(no_mangle)]
pub extern "C" fn sitgurp_shallower<'a>(first: &'a [u8], second: &'a [u8]) -> SitgurpWhich
    ensures { result ≡ flat_which (which_of first.now second.now) first.now second.now }
{
    let chosen = which_of(first, second);
    match chosen {
        Which::First => SitgurpWhich {
            which: 1,
            length: first.len(),
        },
        Which::Second => SitgurpWhich {
            which: 2,
            length: second.len(),
        },
        Which::Neither => SitgurpWhich {
            which: 0,
            length: 0,
        },
    }
}
