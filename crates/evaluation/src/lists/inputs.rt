// The lists of the inputs. Each has an entry for each level.
ghost use Rattle.std.specs.Prelude.{◌≡◌, length};
ghost use Rattle.nets.specs.Sound.{Sound};
ghost use Rattle.evaluation.specs.Lists.Runs.{Run};
ghost use Rattle.evaluation.specs.Lists.Wires.{list_room};
ghost use Rattle.evaluation.specs.Lists.Laid.{InputReady, input_entry, WiresListed};

use crate::lists::order::Span;
use nets::forms::{MOST_WIRES, Net};
use radix::powers::power;

// Writes an input's m entries from `at` on.
fn lay_input(m: usize, weight: usize, at: usize, lists: &mut [u16])
    requires { InputReady m weight at lists.old }
    ensures { Run at m (input_entry weight) lists.old lists.new }
{
    for l in 0..m {
        lists[at + l] = (l * (weight * 16 + 1)) as u16;
    }
}

// Writes the lists of all inputs, and returns their spans, followed by room for those of the gates.
pub fn lay_inputs(net: Net, lists: &mut [u16]) -> [Span; MOST_WIRES]
    requires { Sound net × (length lists.old ≡ list_room) }
    ensures { WiresListed net net.inputs result lists.new }
{
    let m = net.levels;
    let none = Span {
        start: 0,
        count: 0,
        group: 0,
    };
    let mut spans = [none; MOST_WIRES];
    let mut weight = power(m, net.inputs);
    let mut at: usize = 0;
    let mut bit: usize = 1;
    for i in 0..net.inputs {
        weight = weight / m;
        lay_input(m, weight, at, lists);
        spans[i] = Span {
            start: at,
            count: m,
            group: bit,
        };
        at += m;
        bit += bit;
    }
    spans
}
