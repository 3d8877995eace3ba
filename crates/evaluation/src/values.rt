// A net at many assignments.
ghost use Rattle.evaluation.specs.Values.{ValuesReady, ValuesDone};

use crate::fast::by_table::{MOST_INDICES, table_values};
use crate::gate::gate_values;
use nets::forms::{MOST_WIRES, Net};
use radix::limits::MOST_GATES;
use radix::powers::power;

// The most columns that `values` fills, one for each gate. This many times `count` cells after `base` are room enough for every net.
pub const MOST_COLUMNS: usize = MOST_GATES;

// Does what `values` does, gate by gate.
#[tactic(auto, using(crate::proofs::Gates::gate_places))]
fn gate_by_gate(
    net: Net,
    starts: [usize; MOST_WIRES],
    base: usize,
    count: usize,
    wires: &mut [u8],
) -> usize
    requires { ValuesReady net starts base count wires.old }
    ensures { ValuesDone net starts base count wires.old wires.new result }
{
    let left = net.left;
    let right = net.right;
    let digits = net.digits;
    let size = net.levels * net.levels;
    let mut at = starts;
    let mut to: usize = base;
    for k in 0..net.gates {
        let a = at[left[k] as usize];
        let b = at[right[k] as usize];
        gate_values(net.levels, &digits, k * size, a, b, to, count, wires);
        at[net.inputs + k] = to;
        to += count;
    }
    at[net.inputs + net.gates - 1]
}

// Computes the value of a net at `count` assignments. The levels of input i start at starts[i], one for each assignment, all before `base`. Puts the
// values from `base` on. Returns where the net's values begin. Uses the net's table if it has no more cells than there are assignments, and these are
// not too many. A gate of two levels takes no look-up, so there the gates are quicker.
pub fn values(
    net: Net,
    starts: [usize; MOST_WIRES],
    base: usize,
    count: usize,
    wires: &mut [u8],
) -> usize
    requires { ValuesReady net starts base count wires.old }
    ensures { ValuesDone net starts base count wires.old wires.new result }
{
    if net.levels > 2 && count <= MOST_INDICES && power(net.levels, net.inputs) <= count {
        return table_values(net, starts, base, count, wires);
    }
    gate_by_gate(net, starts, base, count, wires)
}
