// The counts of full groups: if every part of a group has mark 2, its number of trees depends only on its number of members.
ghost use Rattle.std.specs.Prelude.{◌≡◌, ◌≤◌, ◌<◌};
ghost use Rattle.rules.specs.Limits.{most_inputs};
ghost use Rattle.trees.specs.Families.FamilyBounds.{trees_on};
ghost use Rattle.tree_counts.specs.Counts.{Countable, CountsKnown, CountKnown};

use crate::counts;
use marks::own;
use radix::members;

// The number of trees by number of members. Entry k is 2k - 3 times entry k - 1.
const TREES: [u64; 13] = [
    0,
    1,
    1,
    3,
    15,
    105,
    945,
    10_395,
    135_135,
    2_027_025,
    34_459_425,
    654_729_075,
    13_749_310_575,
];

// Returns how many trees k inputs have.
fn trees_on(k: usize) -> u64
    requires { k ≤ most_inputs }
    ensures { result ≡ trees_on k }
{
    TREES[k]
}

// Records the counts of the parts of group g, by rising number, up to the first that does not have mark 2. All parts of a recorded part have lower
// numbers, so they were recorded before it.
fn keep_full(marks: &[u8], counts: &mut [u64], g: usize)
    requires { Countable marks.now counts.old g }
    ensures { CountsKnown marks.now counts.new }
{
    let mut part: usize = 0;
    while part < g {
        part = members::next_part(g, part);
        if own::mark_at(marks, part) != 2 {
            return;
        }
        let count = trees_on(members::members_of(part));
        counts[part] = count;
    }
}

// Returns the number of trees of group g. Records the counts of its full parts first.
pub fn tree_count(marks: &[u8], counts: &mut [u64], g: usize) -> u64
    requires { Countable marks.now counts.old g }
    ensures { CountKnown marks.now g result counts.new }
{
    keep_full(marks, counts, g);
    counts::group_count(marks, counts, g)
}
