// The net made from a table, by either choice.
ghost use Rattle.rules.specs.Calls.Answers.{ink_in};
ghost use Rattle.gate_tables.specs.MadeNet.{MadeNet, WithTree};

use crate::{settled, shallow};
use nets::forms;
use wirings::choice::Choice;

// Returns the net of a table that has a tree, so the whole group has mark 2.
pub fn made_net(
    choice: Choice,
    m: usize,
    n: usize,
    cells: &[u8],
    marks: &[u8],
    leaves: usize,
) -> forms::Net
    requires { WithTree m n cells.now marks.now leaves }
    ensures { MadeNet choice m n (ink_in cells.now) result }
{
    match choice {
        Choice::Settled => settled::settled_net(m, n, cells, marks, leaves),
        Choice::Shallow => shallow::shallow_net(m, n, cells, marks, leaves),
    }
}
