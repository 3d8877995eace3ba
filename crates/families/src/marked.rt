// What both calls do with a table: write its cells and its marks to the buffers, and count its trees.
ghost use Rattle.std.specs.Prelude.{◌≡◌, true, ℕ, ◌^◌, ◌≤◌, ◌<◌, length};
ghost use Rattle.rules.specs.Limits.{size_fits};
ghost use Rattle.rules.specs.Groups.Marks.{marks_length};
ghost use Rattle.rules.specs.Nets.Leaves.{leaves_of};
ghost use Rattle.rules.specs.Calls.Answers.{ink_in};
ghost use Rattle.families.specs.Marked.{NoneKnown, MarkedCount};

use marks::all_groups;
use net_sheets::text::put::copy;
use radix::powers;
use tree_counts::fast::full;
use wirings::leaves::group;

// The count of a table's trees, and the group of its leaves.
#[derive(Drop)]
pub struct Counted {
    pub trees: u64,
    pub leaves: usize,
}

// Writes the cells and the marks, and returns the count of trees: 0 if the table has none. `own` is scratch for the marks, and `counts` must be all zeros.
pub fn count_marked(
    m: usize,
    n: usize,
    inks: &[u8],
    cells: &mut [u8],
    own: &mut [u8],
    marks: &mut [u8],
    counts: &mut [u64],
) -> Counted
    requires { (size_fits m n ≡ true) × (length inks.now ≡ m ^ n) × (length inks.now ≤ length cells.old) × (2 ^ n ≤ length own.old)
        × (marks_length n ≤ length marks.old) × (2 ^ n ≤ length counts.old) × (NoneKnown counts.old)
        × ((p : ℕ) → p < m ^ n → ink_in inks.now p < m) }
    ensures { (MarkedCount m n inks.now cells.old marks.old result.trees
        cells.new own.new marks.new counts.new) × (result.leaves ≡ leaves_of m n (ink_in inks.now)) }
{
    copy(inks, cells, 0);
    let marked = all_groups::mark_and_store(m, n, inks, own, marks);
    let end = powers::power(2, n);
    let leaves = group::leaves(n, marked.idle);
    let trees = full::tree_count(&own[0..end], counts, leaves);
    Counted { trees, leaves }
}
