// Whether a net leaves out an input that matters to a table.
ghost use Rattle.std.specs.Prelude.{◌≡◌};
ghost use Rattle.rules.specs.Calls.Answers.{ink_in};
ghost use Rattle.gate_tables.specs.Sized.{Sized};
ghost use Rattle.nets.specs.Forms.{gates_of};
ghost use Rattle.nets.specs.Sound.{Sound};
ghost use Rattle.keeping.specs.LeftOut.{leaves_out_of};

use net_sheets::reader::references::is_used;
use nets::forms::Net;
use wirings::leaves::matters::matters;

// Returns whether an input matters that no gate uses.
pub fn leaves_out(net: Net, cells: &[u8]) -> bool
    requires { (Sound net) × (Sized net.levels net.inputs cells.now) }
    ensures { result ≡ leaves_out_of net.levels net.inputs (ink_in cells.now) (gates_of net) }
{
    (0..net.inputs).any(|i| !is_used(net, i) && matters(net.levels, net.inputs, cells, i))
}
