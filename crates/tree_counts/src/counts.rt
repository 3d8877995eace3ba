// The number of trees of a group, from its splits, and of a split, from its two groups: they call each other. Known counts are recorded.
ghost use Rattle.std.specs.Prelude.{◌≡◌, ◌-◌, ◌*◌, ◌^◌, ◌<◌, length, get_or};
ghost use Rattle.tree_counts.specs.Counts.{Countable, Splittable, CountKnown, SplitKnown};

use marks::{own, split};
use radix::members;

// Returns the product of the recorded counts of a and of the rest of g: 0 if one of the two is not yet known.
pub fn kept_product(counts: &[u64], g: usize, a: usize) -> u64
    requires { (a < g) × (g < length counts.now) × (get_or counts.now a 0 * get_or counts.now (g - a) 0 < 2 ^ 64) }
    ensures { result ≡ get_or counts.now a 0 * get_or counts.now (g - a) 0 }
{
    counts[a] * counts[g - a]
}

// Returns the number of trees of group g. `counts` has each group's count at its number, or 0 if it is not yet known. Goes through the parts that
// hold the first-listed input.
#[cycle(group_count_split_count)]
pub fn group_count(marks: &[u8], counts: &mut [u64], g: usize) -> u64
    requires { Countable marks.now counts.old g }
    ensures { CountKnown marks.now g result counts.new }
{
    if own::mark_at(marks, g) != 2 {
        return 0;
    }
    let known = counts[g];
    if known != 0 {
        return known;
    }
    if members::single(g) {
        counts[g] = 1;
        return 1;
    }
    let rest = members::without_first(g);
    let first = g - rest;
    let mut sum: u64 = 0;
    let mut part: usize = 0;
    while part < rest {
        sum += known_split(marks, counts, g, first + part);
        part = members::next_part(rest, part);
    }
    counts[g] = sum;
    sum
}

// Returns the number of trees of the split of group g, which has mark 2, into a and the rest. Uses the recorded counts if both are known.
#[cycle(group_count_split_count)]
pub fn known_split(marks: &[u8], counts: &mut [u64], g: usize, a: usize) -> u64
    requires { Splittable marks.now counts.old g a }
    ensures { SplitKnown marks.now g a result counts.new }
{
    let product = kept_product(counts, g, a);
    if product != 0 {
        return product;
    }
    split_count(marks, counts, g, a)
}

// Returns the number of trees of the split of group g, which has mark 2, into a and the rest: the product of their counts.
#[cycle(group_count_split_count)]
pub fn split_count(marks: &[u8], counts: &mut [u64], g: usize, a: usize) -> u64
    requires { Splittable marks.now counts.old g a }
    ensures { SplitKnown marks.now g a result counts.new }
{
    if !split::both_two(marks, g, a) {
        return 0;
    }
    let left = group_count(marks, counts, a);
    let right = group_count(marks, counts, g - a);
    left * right
}
