// Whether an input matters. Neighbours at an input are its weight apart, so an input is idle if certain runs of cells are equal.
ghost use Rattle.std.specs.Prelude.{◌≡◌, true, ◌^◌, ◌≤◌, ◌<◌, length, Decides};
ghost use Rattle.rules.specs.Limits.{size_fits};
ghost use Rattle.rules.specs.Nets.Leaves.{matters};
ghost use Rattle.rules.specs.Calls.Answers.{ink_in};
ghost use Rattle.wirings.specs.Leaves.Blocks.{SameCells};

use radix::powers;

// Returns whether each cell of a block, except those in its last run, equals the cell one weight later.
fn same_block(block: &[u8], weight: usize) -> bool
    requires { weight ≤ length block.now }
    ensures { Decides result (SameCells block.now weight) }
{
    block[..block.len() - weight] == block[weight..]
}

// Returns whether input i matters. The inputs before it have the same levels at all cells of a block. Stops at the first block that shows it.
pub fn matters(m: usize, n: usize, cells: &[u8], i: usize) -> bool
    requires { (size_fits m n ≡ true) × (m ^ n ≤ length cells.now) × (i < n) }
    ensures { result ≡ matters m n (ink_in cells.now) i }
{
    let weight = powers::power(m, n - 1 - i);
    let table = &cells[..powers::power(m, n)];
    !table
        .chunks_exact(m * weight)
        .all(|block| same_block(block, weight))
}
