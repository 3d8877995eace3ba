// The layers of a net: the most gates on a path from an input to the output.
ghost use Rattle.std.specs.Prelude.{◌≡◌};
ghost use Rattle.rules.specs.Nets.Layers.{layers};
ghost use Rattle.nets.specs.Forms.{gates_of};
ghost use Rattle.nets.specs.Sound.{Sound};

use crate::forms::{MOST_WIRES, Net};

// Returns the layers of a net. An input has 0 layers, a gate has one more than the deeper of its two references.
#[tactic(auto, using(crate::specs::References::gate_step, crate::specs::Sound::wires_room, crate::specs::Sound::gates_pos))]
pub fn layers(net: Net) -> usize
    requires { Sound net }
    ensures { result ≡ layers net.inputs (gates_of net) }
{
    let mut depths = [0usize; MOST_WIRES];
    for k in 0..net.gates {
        let left = depths[net.left[k] as usize];
        let right = depths[net.right[k] as usize];
        depths[net.inputs + k] = 1 + left.max(right);
    }
    depths[net.inputs + net.gates - 1]
}
