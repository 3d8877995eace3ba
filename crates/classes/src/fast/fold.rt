// Folds other inputs into the cells. For an input of two levels and weight w, the inks at p and at p + w become one number at p. Two assignments are
// alike exactly if they are alike over these numbers and the assignments of the remaining inputs: half as many columns.
ghost use Rattle.std.specs.Prelude.{◌≡◌, ℕ, ◌/◌, ◌≤◌, ◌<◌, length, take};
ghost use Rattle.rules.specs.Limits.{most_cells};
ghost use Rattle.rules.specs.Calls.Answers.{ink_in};
ghost use Rattle.classes.specs.Fast.Folds.{Folds, Paired};
ghost use Rattle.classes.specs.Fast.Halves.{Nested};

use radix::limits::MOST_CELLS;

// Writes the numbers with the digits from[p] and from[p + w] to the front of `to`, for the first `len` inks, and returns how many there are. The loop
// has no early exit, so the compiler can vectorise it.
fn pair_inks(from: &[u8], len: usize, w: usize, base: u8, to: &mut [u8]) -> usize
    requires { (len ≤ length from.now) × (len ≤ length to.old) × (base ≤ 16) × ((k : ℕ) → k < len → ink_in from.now k < base) }
    ensures { Paired (ink_in from.now) len w base result to.new }
{
    if len <= w {
        return 0;
    }
    let end = len - w;
    for p in 0..end {
        to[p] = from[p + w] * base + from[p];
    }
    end
}

// Folds three inputs into cells of two levels: eight inks make a byte, and an eighth of the columns ys is left. Returns how many folded cells it writes.
pub fn fold_thrice(cells: &[u8], ys: &[u16], to: &mut [u8]) -> usize
    requires { (length cells.now ≤ most_cells) × (length cells.now ≤ length to.old) × ((k : ℕ) → ink_in cells.now k < 2)
        × Nested ys.now (length ys.now) × (8 ≤ length ys.now) }
    ensures { (result ≤ length cells.now) × Folds (ink_in cells.now) (length cells.now) ys.now
        (ink_in to.new) result (take (length ys.now / 8) ys.now) }
{
    let mut between = [0u8; MOST_CELLS];
    let half = ys.len() / 2;
    let quarter = half / 2;
    let first = pair_inks(cells, cells.len(), ys[half] as usize, 2, to);
    let second = pair_inks(to, first, ys[quarter] as usize, 4, &mut between);
    pair_inks(&between, second, ys[quarter / 2] as usize, 16, to)
}
