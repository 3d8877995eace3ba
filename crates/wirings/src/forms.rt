// A wiring by value, with room for the largest allowed size. specs/Links.antt says what it represents.
ghost use Rattle.std.specs.Prelude.{◌≡◌, ◌+◌, ◌<◌};
ghost use Rattle.rules.specs.Limits.{most_inputs};
ghost use Rattle.wirings.specs.Links.{no_links, Linked};

use radix::limits::MOST_GATES;

// Which two references each gate joins. References are numbered as in a net: input i is i, from 0, and gate k, from 1, is
// inputs + k - 1.
#[derive(Clone, Copy)]
pub struct Wiring {
    pub gates: usize,
    pub left: [u8; MOST_GATES],
    pub right: [u8; MOST_GATES],
}

// Returns a wiring with no gate.
pub fn no_links() -> Wiring
    ensures { result ≡ no_links }
{
    Wiring {
        gates: 0,
        left: [0u8; MOST_GATES],
        right: [0u8; MOST_GATES],
    }
}

// Returns the wiring with one more gate, which joins `left` and `right`.
pub fn link(left: u8, right: u8, mut wiring: Wiring) -> Wiring
    requires { wiring.gates + 1 < most_inputs }
    ensures { Linked left right wiring result }
{
    let k = wiring.gates;
    wiring.gates += 1;
    wiring.left[k] = left;
    wiring.right[k] = right;
    wiring
}
