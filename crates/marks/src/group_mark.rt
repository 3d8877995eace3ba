// The mark of one group.
ghost use Rattle.std.specs.Prelude.{◌≡◌, ℕ, ◌^◌, ◌≤◌, ◌<◌, length};
ghost use Rattle.rules.specs.Limits.{most_levels};
ghost use Rattle.rules.specs.Groups.Marks.{mark_of};
ghost use Rattle.rules.specs.Calls.Answers.{ink_in};
ghost use Rattle.classes.specs.Within.{OffsetRoom};
ghost use Rattle.marks.specs.GroupRule.{few_mark};
ghost use Rattle.radix.specs.Widths.{groups_end};

use crate::split;
use classes::counting;
use radix::members;

// Returns the mark of a group that has at most m classes, from the marks of the groups below it.
pub fn few_mark(marks: &[u8], g: usize) -> u8
    requires { (0 < g) × (g < groups_end) × (g ≤ length marks.now) }
    ensures { (n : ℕ) → g < 2 ^ n → result ≡ few_mark n marks.now g }
{
    if members::without_first(g) == 0 {
        return 2;
    }
    if split::split_of(marks, g) < g {
        return 2;
    }
    1
}

// Returns the mark of group g, from the marks of the groups below it. `xs` and `ys` are work arrays. Looks for a split only if the group has at most m
// classes.
pub fn mark_group(
    m: usize,
    n: usize,
    cells: &[u8],
    g: usize,
    xs: &mut [u16],
    ys: &mut [u16],
    marks: &[u8],
) -> u8
    requires { (OffsetRoom m n cells.now xs.old ys.old) × (m ≤ most_levels) × (g < 2 ^ n) × (g ≤ length marks.now) }
    ensures { result ≡ mark_of m n (ink_in cells.now) marks.now g }
{
    if g == 0 {
        return 0;
    }
    if counting::more_classes_than_levels(m, n, cells, g, xs, ys) {
        return 0;
    }
    few_mark(marks, g)
}
