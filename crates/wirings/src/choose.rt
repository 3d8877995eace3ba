// Builds a wiring by a choice of parts: a group's two parts first, then its own gate.
ghost use Rattle.std.specs.Prelude.{◌+◌, ◌≤◌};
ghost use Rattle.rules.specs.Groups.Groups.{size};
ghost use Rattle.wirings.specs.Choice.{split_by, LayersRoom};
ghost use Rattle.wirings.specs.Added.{Added};
ghost use Rattle.wirings.specs.Chosen.{Choosable, Chosen};

use crate::choice::{Choice, part_of};
use crate::forms;
use radix::members;

// A wiring, and the reference to what was added to it last.
#[derive(Drop)]
pub struct Wired {
    pub wiring: forms::Wiring,
    pub reference: u8,
}

// Adds the links of group g, which has mark 2: first those of A, then those of B, then its own.
fn wire_group(
    choice: Choice,
    n: usize,
    marks: &[u8],
    fewest: &[u8],
    g: usize,
    wiring: forms::Wiring,
) -> Wired
    requires { (Choosable n marks.now (split_by choice n marks.now fewest.now) g) × (LayersRoom choice g fewest.now)
        × (wiring.gates + size n g ≤ n) }
    ensures { Added n (split_by choice n marks.now fewest.now) g wiring result.wiring result.reference }
{
    if members::single(g) {
        return Wired {
            wiring,
            reference: members::first_input(n, g) as u8,
        };
    }
    let a = part_of(choice, marks, fewest, g);
    let left = wire_group(choice, n, marks, fewest, a, wiring);
    let first = left.wiring;
    let right = wire_group(choice, n, marks, fewest, g - a, first);
    let both = right.wiring;
    let reference = (n + both.gates) as u8;
    let all = forms::link(left.reference, right.reference, both);
    Wired {
        wiring: all,
        reference,
    }
}

// Returns the wiring of the group `leaves`, which has mark 2.
pub fn choose(choice: Choice, n: usize, marks: &[u8], fewest: &[u8], leaves: usize) -> forms::Wiring
    requires { (Choosable n marks.now (split_by choice n marks.now fewest.now) leaves) × (LayersRoom choice leaves fewest.now) }
    ensures { Chosen n (split_by choice n marks.now fewest.now) leaves result }
{
    let none = forms::no_links();
    let built = wire_group(choice, n, marks, fewest, leaves, none);
    built.wiring
}
