// The first of each class among rows of a group that columns distinguish.
ghost use Rattle.std.specs.Prelude.{◌≡◌, ℕ, ◌+◌, ◌≤◌, ◌<◌, length, ltb, take, get_or};
ghost use Rattle.rules.specs.Lists.{first_place};
ghost use Rattle.rules.specs.Groups.Groups.{alike_over};
ghost use Rattle.rules.specs.Calls.Answers.{ink_in};
ghost use Rattle.radix.specs.Fronts.{Front};
ghost use Rattle.classes.specs.Firsts.{classes_over};
ghost use Rattle.classes.specs.Within.{Within};
ghost use Rattle.representatives.specs.Columns.{columns_of, Column};
ghost use Rattle.representatives.specs.FirstRows.{RowsFit};

use crate::rows;

// Returns whether the ink is the same at p and at q for each of the columns. Tries the column `hint` first, because it distinguished other rows.
fn alike_by(cells: &[u8], heads: &[u16], run: usize, p: usize, q: usize, hint: usize) -> bool
    requires { (0 < run) × (Column (columns_of run heads.now) hint) × (Within (length cells.now) (columns_of run heads.now) p)
        × (Within (length cells.now) (columns_of run heads.now) q) }
    ensures { result ≡ alike_over (ink_in cells.now) (columns_of run heads.now) p q }
{
    if cells[p + hint] != cells[q + hint] {
        return false;
    }
    rows::column_apart(cells, heads, run, p, q).is_none()
}

// Returns whether p is in one of the classes whose first rows are the first `count` of `firsts`.
fn is_known(
    cells: &[u8],
    heads: &[u16],
    run: usize,
    firsts: &[u16],
    count: usize,
    p: usize,
    hint: usize,
) -> bool
    requires { (0 < run) × (Column (columns_of run heads.now) hint) × (count ≤ length firsts.now)
        × (Within (length cells.now) (columns_of run heads.now) p)
        × ((j : ℕ) → j < count → Within (length cells.now) (columns_of run heads.now) (get_or firsts.now j 0)) }
    ensures { result ≡ ltb (first_place (alike_over (ink_in cells.now) (columns_of run heads.now) p) (take count firsts.now)) count }
{
    for q in &firsts[..count] {
        if alike_by(cells, heads, run, p, *q as usize, hint) {
            return true;
        }
    }
    false
}

// Puts the first of each class among the rows xs to the front of `firsts`, stops at m + 1 of them, and returns how many it put.
pub fn row_firsts(
    cells: &[u8],
    xs: &[u16],
    heads: &[u16],
    run: usize,
    m: usize,
    firsts: &mut [u16],
) -> usize
    requires { RowsFit (length cells.now) xs.now (columns_of run heads.now) m (length firsts.old) }
    ensures { Front (take (m + 1) (classes_over (ink_in cells.now) (columns_of run heads.now) xs.now)) result
        firsts.new }
{
    firsts[0] = xs[0];
    let mut count: usize = 1;
    let mut hint = heads[0] as usize;
    for p in &xs[1..] {
        let row = *p as usize;
        if is_known(cells, heads, run, firsts, count, row, hint) {
            continue;
        }
        let last = firsts[count - 1] as usize;
        firsts[count] = *p;
        if count == m {
            return count + 1;
        }
        hint = rows::place_apart(cells, heads, run, row, last, hint);
        count += 1;
    }
    count
}
