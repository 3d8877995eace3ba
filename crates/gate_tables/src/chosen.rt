// The net that a choice of parts makes from a table: its wiring of the table's leaves, filled.
ghost use Rattle.rules.specs.Calls.Answers.{ink_in};
ghost use Rattle.gate_tables.specs.MadeNet.{LayersKnown, MadeNet, WithTree};

use crate::fill;
use nets::forms;
use wirings::choice::Choice;
use wirings::choose;

// Returns the net of a table that has a tree, so the whole group has mark 2. `leaves` is the group of its leaves.
pub fn chosen_net(
    choice: Choice,
    m: usize,
    n: usize,
    cells: &[u8],
    marks: &[u8],
    fewest: &[u8],
    leaves: usize,
) -> forms::Net
    requires table { WithTree m n cells.now marks.now leaves }
    requires layers { LayersKnown choice n marks.now leaves fewest.now }
    ensures { MadeNet choice m n (ink_in cells.now) result }
{
    let wiring = choose::choose(choice, n, marks, fewest, leaves);
    fill::fill(m, n, cells, wiring)
}
