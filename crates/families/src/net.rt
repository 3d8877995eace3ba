// The net of a number: its wiring of the table's leaves, filled.
ghost use Rattle.std.specs.Prelude.{◌≡◌, true, ℕ, ◌^◌, ◌≤◌, ◌<◌, length};
ghost use Rattle.rules.specs.Limits.{size_fits};
ghost use Rattle.rules.specs.Groups.Marks.{marks_of};
ghost use Rattle.rules.specs.Nets.Leaves.{leaves_of};
ghost use Rattle.rules.specs.Nets.Family.{tree_count, family_gates};
ghost use Rattle.rules.specs.Calls.Answers.{ink_in};
ghost use Rattle.gate_tables.specs.MadeNet.{NetOf};
ghost use Rattle.tree_counts.specs.Counts.{Countable};

use gate_tables::fill;
use nets::forms;
use tree_counts::numbered;

// Returns the net of number r of a table; r is below the count of trees. `marks` has exactly the table's marks, and `leaves` is the group of its leaves.
pub fn family_net(
    m: usize,
    n: usize,
    cells: &[u8],
    marks: &[u8],
    counts: &mut [u64],
    leaves: usize,
    r: u64,
) -> forms::Net
    requires { (size_fits m n ≡ true) × (m ^ n ≤ length cells.now) × ((p : ℕ) → p < m ^ n → ink_in cells.now p < m)
        × (marks.now ≡ marks_of m n (ink_in cells.now)) × (Countable marks.now counts.old (leaves_of m n (ink_in cells.now)))
        × (r < tree_count n (marks_of m n (ink_in cells.now)) (leaves_of m n (ink_in cells.now))) × (leaves ≡ leaves_of m n (ink_in cells.now)) }
    ensures { NetOf m n (family_gates m n (ink_in cells.now) (marks_of m n (ink_in cells.now)) r) result }
{
    let wiring = numbered::wiring_of(n, marks, counts, leaves, r);
    fill::fill(m, n, cells, wiring)
}
