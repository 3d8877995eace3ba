// The lists of a net's gates, all but the last.
ghost use Rattle.nets.specs.Sound.{Sound};
ghost use Rattle.evaluation.specs.Lists.Laid.{WiresListed, NetListed};

use crate::lists::join::join;
use crate::lists::order::{Order, Span, joined_span, shorter_outside};
use nets::forms::{MOST_WIRES, Net};

// Writes the lists of all gates but the last, after those of the inputs, and returns the last gate's two lists.
#[tactic(auto, using(crate::proofs::Gates::gate_places))]
pub fn lay_gates(net: Net, inputs: [Span; MOST_WIRES], lists: &mut [u16]) -> Order
    requires { Sound net × WiresListed net net.inputs inputs lists.old }
    ensures { NetListed net lists.new result }
{
    let left = net.left;
    let right = net.right;
    let digits = net.digits;
    let size = net.levels * net.levels;
    let mut spans = inputs;
    let mut to = net.inputs * net.levels;
    let last = net.gates - 1;
    for k in 0..last {
        let l = spans[left[k] as usize];
        let r = spans[right[k] as usize];
        let gate = joined_span(l, r, to);
        let order = shorter_outside(net.levels, l, r);
        join(order, &digits, k * size, to, lists);
        spans[net.inputs + k] = gate;
        to += gate.count;
    }
    shorter_outside(
        net.levels,
        spans[left[last] as usize],
        spans[right[last] as usize],
    )
}
