// Witness columns: columns that distinguish the rows of a group with too many classes and agree with each other at as many inputs as possible.
ghost use Rattle.std.specs.Prelude.{◌≡◌, false, ℕ, ◌^◌, ◌≤◌, ◌<◌, length, get_or};
ghost use Rattle.rules.specs.Groups.Groups.{alike_over};
ghost use Rattle.rules.specs.Calls.Answers.{ink_in};
ghost use Rattle.classes.specs.Within.{Within};
ghost use Rattle.radix.specs.Widths.{most_members};
ghost use Rattle.representatives.specs.Columns.{columns_of};
ghost use Rattle.representatives.specs.Witnesses.{Agreed, Telling, ToldOne, ToldRow, ToldAll, RowsTold};

use crate::rows;

// Every input.
const ALL: usize = 65535;

// Returns the inputs of s at which the indices x and y have the same level. Starts at the last input and stops when the remaining digits are equal.
fn agree(m: usize, n: usize, x: usize, y: usize, s: usize) -> usize
    requires { (0 < m) × (n ≤ most_members) × (x < m ^ n) × (y < m ^ n) }
    ensures { Agreed m n x y s result }
{
    let mut rest = s;
    let mut u = x;
    let mut v = y;
    for i in (0..n).rev() {
        if u == v {
            break;
        }
        if u % m != v % m {
            rest = rest & (ALL - (1 << i));
        }
        u = u / m;
        v = v / m;
    }
    rest
}

// Picks a column that distinguishes rows p and q, and returns the inputs of s at which it agrees with the column `base`: all of them if `base` itself
// distinguishes them.
fn agreeing_inputs(
    m: usize,
    n: usize,
    cells: &[u8],
    heads: &[u16],
    run: usize,
    p: usize,
    q: usize,
    base: usize,
    s: usize,
) -> usize
    requires { (0 < run) × Telling m n (ink_in cells.now) (length cells.now) (columns_of run heads.now) base p q }
    ensures { ToldOne m n (ink_in cells.now) (columns_of run heads.now) base p q s result }
{
    if s == 0 {
        return 0;
    }
    if cells[p + base] != cells[q + base] {
        return s;
    }
    let y = rows::place_apart(cells, heads, run, p, q, base);
    agree(m, n, y, base, s)
}

// Does the same for p and each of the first `count` of `firsts`, and returns the inputs at which all the columns agree.
fn agreeing_in_row(
    m: usize,
    n: usize,
    cells: &[u8],
    heads: &[u16],
    run: usize,
    firsts: &[u16],
    count: usize,
    p: usize,
    base: usize,
    s: usize,
) -> usize
    requires { (0 < run) × (count ≤ length firsts.now)
        × ((j : ℕ) → j < count → Telling m n (ink_in cells.now) (length cells.now) (columns_of run heads.now) base p (get_or firsts.now j 0)) }
    ensures { ToldRow m n (ink_in cells.now) (columns_of run heads.now) base p firsts.now count s result }
{
    let mut rest = s;
    for q in &firsts[..count] {
        rest = agreeing_inputs(m, n, cells, heads, run, p, *q as usize, base, rest);
    }
    rest
}

// Does the same for each pair among the first m + 1 of `firsts`.
pub fn agreeing_in_all(
    m: usize,
    n: usize,
    cells: &[u8],
    heads: &[u16],
    run: usize,
    firsts: &[u16],
    s: usize,
) -> usize
    requires { (RowsTold m n (ink_in cells.now) (length cells.now) (columns_of run heads.now) firsts.now) × (s < 2 ^ 16) }
    ensures { ToldAll m n (ink_in cells.now) (columns_of run heads.now) firsts.now result }
{
    let base = rows::place_apart(
        cells,
        heads,
        run,
        firsts[m] as usize,
        firsts[m - 1] as usize,
        heads[0] as usize,
    );
    let mut rest = s;
    for k in (1..=m).rev() {
        rest = agreeing_in_row(
            m,
            n,
            cells,
            heads,
            run,
            firsts,
            k,
            firsts[k] as usize,
            base,
            rest,
        );
    }
    rest
}
