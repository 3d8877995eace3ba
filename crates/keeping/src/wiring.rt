// The wiring of a net.
ghost use Rattle.std.specs.Prelude.{◌≡◌};
ghost use Rattle.rules.specs.Calls.Keeping.{gate_links};
ghost use Rattle.nets.specs.Forms.{gates_of};
ghost use Rattle.wirings.specs.Links.{links_in};

use nets::forms::Net;
use wirings::forms::Wiring;

// Returns left and right of every gate, in the gates' order.
pub fn wiring_of(net: Net) -> Wiring
    ensures { (result.gates ≡ net.gates) × (links_in result ≡ gate_links (gates_of net)) }
{
    let left = net.left;
    let right = net.right;
    Wiring {
        gates: net.gates,
        left,
        right,
    }
}
