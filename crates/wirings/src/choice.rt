// Which wiring is chosen: the part A that each group takes.
ghost use Rattle.std.specs.Prelude.{◌≡◌, ℕ, ◌^◌, ◌≤◌, ◌<◌, length};
ghost use Rattle.radix.specs.Widths.{groups_end};
ghost use Rattle.wirings.specs.Choice.{split_by, LayersRoom};

use crate::shallow_split;
use marks::split;

// The settled wiring, or the shallow one.
#[derive(Clone, Copy)]
pub enum Choice {
    Settled,
    Shallow,
}

// Returns the part A of group g. The shallow choice uses the fewest layers of the groups of mark 2, which are in `fewest`.
pub fn part_of(choice: Choice, marks: &[u8], fewest: &[u8], g: usize) -> usize
    requires { (0 < g) × (g < groups_end) × (g ≤ length marks.now) × (LayersRoom choice g fewest.now) }
    ensures { (n : ℕ) → g < 2 ^ n → result ≡ split_by choice n marks.now fewest.now g }
{
    match choice {
        Choice::Settled => split::split_of(marks, g),
        Choice::Shallow => shallow_split::shallow_split(marks, fewest, g),
    }
}
