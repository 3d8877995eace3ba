// The settled net of a table.
ghost use Rattle.rules.specs.Calls.Answers.{ink_in};
ghost use Rattle.wirings.specs.declared.choice.Choice.TheVariants.{Settled};
ghost use Rattle.gate_tables.specs.MadeNet.{MadeNet, WithTree};

use crate::chosen;
use nets::forms;
use wirings::choice::Choice;

// Returns the settled net of a table that has a tree, so the whole group has mark 2. This choice uses no layers.
pub fn settled_net(m: usize, n: usize, cells: &[u8], marks: &[u8], leaves: usize) -> forms::Net
    requires { WithTree m n cells.now marks.now leaves }
    ensures { MadeNet Settled m n (ink_in cells.now) result }
{
    chosen::chosen_net(Choice::Settled, m, n, cells, marks, &marks[0..0], leaves)
}
