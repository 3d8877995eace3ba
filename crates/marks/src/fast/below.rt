// Marks every group except the whole one, by rising number. What is recorded for the groups below a group shows whether it has few classes. A group
// with an idle member takes the mark of the rest, and nothing is recorded for it: such marks are copied, many at a time.
ghost use Rattle.std.specs.Prelude.{◌≡◌, cond, ℕ, ◌+◌, ◌-◌, ◌^◌, ◌≤◌, ◌<◌, eqb, length};
ghost use Rattle.rules.specs.Limits.{most_levels};
ghost use Rattle.rules.specs.Groups.Marks.{mark_in};
ghost use Rattle.rules.specs.Calls.Answers.{ink_in};
ghost use Rattle.radix.specs.Widths.{groups_end};
ghost use Rattle.representatives.specs.Copies.{Copied};
ghost use Rattle.representatives.specs.Steps.{Work};
ghost use Rattle.marks.specs.Fast.Below.{MarkBy, NextMark, GroupMarked, MoreIdle, CopiesPassed, FewWithout, BelowWhole};

use crate::{group_mark, own};
use radix::{members, powers};
use representatives::group;

// Returns the mark of group g. `count` assignments are kept for it, 0 if it has too many classes.
fn mark_by(marks: &[u8], g: usize, count: usize) -> u8
    requires { (g < groups_end) × (g ≤ length marks.now) }
    ensures { MarkBy marks.now g count result }
{
    if g == 0 {
        return 0;
    }
    if count == 0 {
        return 0;
    }
    group_mark::few_mark(marks, g)
}

// Returns the mark of a group with idle members. `rest` is the group of its other members.
fn idle_mark(marks: &[u8], rest: usize) -> u8
    requires { rest < length marks.now }
    ensures { result ≡ cond (eqb rest 0) 2 (mark_in marks.now rest) }
{
    if rest == 0 {
        return 2;
    }
    own::mark_at(marks, rest)
}

// Returns the mark of a group g that has at most m classes, from the marks of the groups below it.
pub fn mark_without(marks: &[u8], g: usize, idle: usize) -> u8
    requires { (0 < g) × (g < groups_end) × (g < length marks.now) }
    ensures { FewWithout marks.now g idle result }
{
    let rest = members::without(g, idle);
    if rest == g {
        return group_mark::few_mark(marks, g);
    }
    idle_mark(marks, rest)
}

// Returns `idle` with the members of group g added, if g has one class. Nothing is known about a group that has a member in `idle`.
fn more_idle(counts: &[u8], g: usize, idle: usize) -> usize
    requires { (g < length counts.now) × (g < groups_end) × (idle < groups_end) }
    ensures { MoreIdle counts.now g idle result }
{
    if counts[g] != 1 {
        return idle;
    }
    if g & idle != 0 {
        return idle;
    }
    idle + g
}

// Returns the mark of group g, and records its classes.
fn mark_next(
    m: usize,
    n: usize,
    cells: &[u8],
    weights: &[u16],
    idle: usize,
    g: usize,
    past: usize,
    counts: &mut [u8],
    kept: &mut [u16],
    xs: &mut [u16],
    ys: &mut [u16],
    firsts: &mut [u16],
    marks: &[u8],
) -> u8
    requires { (Work m n cells.now weights.now counts.old kept.old xs.old ys.old firsts.old)
        × (NextMark m n (ink_in cells.now) counts.old kept.old marks.now idle g past) × (m ≤ most_levels) × (2 ^ n ≤ length marks.now) }
    ensures { GroupMarked m n (ink_in cells.now) marks.now idle g result counts.new kept.new }
{
    let rest = members::without(g, idle);
    if rest < g {
        return idle_mark(marks, rest);
    }
    let count = group::keep_group(
        m, n, cells, weights, idle, g, past, counts, kept, xs, ys, firsts,
    );
    counts[g] = count as u8;
    mark_by(marks, g, count)
}

// Copies the marks of the `count` groups from a on to the groups from b on.
fn copy_marks(marks: &mut [u8], a: usize, b: usize, count: usize)
    requires { (a + count ≤ b) × (b + count ≤ length marks.old) }
    ensures { Copied marks.old a marks.old b count marks.new }
{
    // Most copies are short: with `copy_within` marking a table with idle inputs takes 5% longer.
    for k in 0..count {
        marks[b + k] = marks[a + k];
    }
}

// Returns the next group to mark after g. If g's first-listed input is idle, the next groups that hold it take the marks of the groups without it.
fn pass_copies(marks: &mut [u8], idle: usize, g: usize, end: usize) -> usize
    requires { (g < end) × (end ≤ groups_end) × (end ≤ length marks.old) }
    ensures { CopiesPassed idle g end marks.old result marks.new }
{
    if g == 0 {
        return 1;
    }
    if members::member_of(idle, members::first_of(g)) {
        let rest = members::without_first(g);
        let next = end.min(g + (g - rest));
        copy_marks(marks, rest + 1, g + 1, next - g - 1);
        return next;
    }
    g + 1
}

// Writes the mark of every group except the whole one, and returns a group of idle inputs.
pub fn mark_below(
    m: usize,
    n: usize,
    cells: &[u8],
    weights: &[u16],
    counts: &mut [u8],
    kept: &mut [u16],
    xs: &mut [u16],
    ys: &mut [u16],
    firsts: &mut [u16],
    marks: &mut [u8],
) -> usize
    requires { (Work m n cells.now weights.now counts.old kept.old xs.old ys.old firsts.old)
        × (m ≤ most_levels) × (2 ^ n ≤ length marks.old) }
    ensures { BelowWhole m n (ink_in cells.now) marks.old result marks.new }
{
    let end = powers::power(2, n) - 1;
    let mut idle: usize = 0;
    let mut past: usize = 1;
    let mut g: usize = 0;
    while g < end {
        past = group::past_of(g, past);
        let mark = mark_next(
            m, n, cells, weights, idle, g, past, counts, kept, xs, ys, firsts, marks,
        );
        own::put_mark(marks, g, mark);
        idle = more_idle(counts, g, idle);
        g = pass_copies(marks, idle, g, end);
    }
    idle
}
