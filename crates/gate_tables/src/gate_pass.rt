// A gate's classes and digits, from the samples of its two sides. Every class of the joint group is first reached at a sum of a sample of the left and
// one of the right. So one pass over these sums, at most m·m, in rising order, finds the classes in their order, and what the gate gives at each sum.
ghost use Rattle.std.specs.Prelude.{◌≡◌, cond, ◌+◌, ◌*◌, ◌≤◌, ◌<◌, length, get_or, set};
ghost use Rattle.rules.specs.Limits.{most_levels};
ghost use Rattle.rules.specs.Calls.Answers.{ink_in};
ghost use Rattle.gate_tables.specs.GateRows.{NextSum, LeastTo};
ghost use Rattle.gate_tables.specs.Store.{group_at_of, size_at, samples_at};
ghost use Rattle.gate_tables.specs.GatePass.{PassReady, PassRoom, Passed};

use crate::samples;
use classes::alike;
use radix::{limits, offsets};

// Returns the sum of left's sample u and right's sample v, if there is such a v.
fn next_sum(left: &[u16], right: &[u16], u: usize, v: usize) -> Option<usize>
    requires { u < length left.now }
    ensures { NextSum left.now right.now u v result }
{
    if v < right.len() {
        Some(left[u] as usize + right[v] as usize)
    } else {
        None
    }
}

// Returns the sample of the left whose next sum is least, and that sum, or `None` if all sums are done. `next` has the number of sums done with
// each of them.
fn least_sum(left: &[u16], right: &[u16], next: &[u8]) -> Option<(usize, usize)>
    requires { length left.now ≤ length next.now }
    ensures { LeastTo left.now right.now next.now (length left.now) result }
{
    let mut best: Option<(usize, usize)> = None;
    for u in 0..left.len() {
        if let Some(sum) = next_sum(left, right, u, next[u] as usize) {
            if best.is_none_or(|(_, least)| sum < least) {
                best = Some((u, sum));
            }
        }
    }
    best
}

// Returns what the gate gives at p: the ink if it is the last gate, else the class's number.
fn given(cells: &[u8], last: bool, class: usize, p: usize) -> u8
    requires { (class < 256) × (p < length cells.now) }
    ensures { result ≡ cond last (ink_in cells.now p) class }
{
    if last { cells[p] } else { class as u8 }
}

// Writes x as the next digit of row u, and counts it as done.
fn put_digit(m: usize, u: usize, x: u8, next: &mut [u8], table: &mut [u8])
    requires { (u < length next.old) × (get_or next.old u 0 < most_levels) × (u * m + get_or next.old u 0 < length table.old) }
    ensures { (next.new ≡ set next.old u (get_or next.old u 0 + 1))
        × (table.new ≡ set table.old (u * m + get_or next.old u 0) x) }
{
    let v = next[u] as usize;
    table[u * m + v] = x;
    next[u] = (v + 1) as u8;
}

// Writes the first of each class of the joint group to the front of `firsts` and the gate's digits to the front of `table`, and returns the number of
// classes; or returns m + 1 as soon as there are more than m. `ys` is a work array.
pub fn sum_classes(
    m: usize,
    n: usize,
    cells: &[u8],
    a: usize,
    b: usize,
    last: bool,
    left: &[u16],
    right: &[u16],
    ys: &mut [u16],
    firsts: &mut [u16],
    table: &mut [u8],
) -> usize
    requires { PassReady m n cells.now a b left.now right.now × PassRoom m n ys.old firsts.old table.old }
    ensures { Passed m n (ink_in cells.now) last a b result firsts.new table.new }
{
    let other = offsets::other_offsets(m, n, a + b, ys);
    let mut next = [0u8; limits::MOST_LEVELS];
    let mut count: usize = 0;
    while let Some((u, p)) = least_sum(left, right, &next) {
        firsts[count] = p as u16;
        let class = alike::class_of(cells, &ys[0..other], firsts, count, p);
        if m <= class {
            return m + 1;
        }
        put_digit(m, u, given(cells, last, class, p), &mut next, table);
        count = count.max(class + 1);
    }
    count
}

// Does what `sum_classes` does, for two wires.
pub fn gate_classes(
    m: usize,
    n: usize,
    cells: &[u8],
    wires: &[u16],
    left: u8,
    right: u8,
    last: bool,
    ys: &mut [u16],
    firsts: &mut [u16],
    table: &mut [u8],
) -> usize
    requires { (left * 11 + 2 + size_at wires.now left ≤ length wires.now) × (right * 11 + 2 + size_at wires.now right ≤ length wires.now)
        × PassReady m n cells.now (group_at_of wires.now left) (group_at_of wires.now right) (samples_at wires.now left) (samples_at wires.now right)
        × PassRoom m n ys.old firsts.old table.old }
    ensures { Passed m n (ink_in cells.now) last (group_at_of wires.now left) (group_at_of wires.now right) result
        firsts.new table.new }
{
    let a = samples::group_of(wires, left) as usize;
    let b = samples::group_of(wires, right) as usize;
    let lefts = samples::samples_of(wires, left);
    let rights = samples::samples_of(wires, right);
    sum_classes(m, n, cells, a, b, last, lefts, rights, ys, firsts, table)
}
