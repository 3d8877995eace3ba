// The shallow net of a table.
ghost use Rattle.rules.specs.Calls.Answers.{ink_in};
ghost use Rattle.wirings.specs.declared.choice.Choice.TheVariants.{Shallow};
ghost use Rattle.gate_tables.specs.MadeNet.{MadeNet, WithTree};

use crate::chosen;
use marks::own;
use nets::forms;
use wirings::choice::Choice;
use wirings::fewest_layers;

// Returns the shallow net of a table that has a tree, so the whole group has mark 2.
pub fn shallow_net(m: usize, n: usize, cells: &[u8], marks: &[u8], leaves: usize) -> forms::Net
    requires { WithTree m n cells.now marks.now leaves }
    ensures { MadeNet Shallow m n (ink_in cells.now) result }
{
    let mut fewest = [0u8; own::MOST_GROUPS];
    fewest_layers::fewest_layers(n, marks, leaves, &mut fewest);
    chosen::chosen_net(Choice::Shallow, m, n, cells, marks, &fewest, leaves)
}
