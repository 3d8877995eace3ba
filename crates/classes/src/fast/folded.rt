// The first of each class of a group, with folded cells if the table has two levels and folding pays.
ghost use Rattle.std.specs.Prelude.{◌≡◌, true, ℕ, ◌≤◌, ◌<◌, length, take};
ghost use Rattle.rules.specs.Limits.{most_cells, most_levels};
ghost use Rattle.rules.specs.Calls.Answers.{ink_in};
ghost use Rattle.radix.specs.Fronts.{Front};
ghost use Rattle.classes.specs.Counting.{Ready};
ghost use Rattle.classes.specs.Fast.Halves.{Nested};
ghost use Rattle.classes.specs.Firsts.{classes_over};

use crate::fast::fold;
use crate::{counting, keys};
use radix::limits;

// Folding takes longer than counting if the table has no more cells than this.
const FEW_CELLS: usize = 256;

// A key of folded cells: a byte for each of this many columns, in this base.
const KEY_COLUMNS: usize = 4;

const KEY_BASE: usize = 5;

// Returns whether to fold: the table has two levels and enough cells, and three other inputs are left to fold.
fn pays(m: usize, cells: usize, columns: usize) -> bool
    ensures { result ≡ true → (m ≡ 2) × (8 ≤ columns) }
{
    m == 2 && FEW_CELLS < cells && 8 <= columns
}

// As `class_firsts`, over folded cells.
fn folded_firsts(
    cells: &[u8],
    xs: &[u16],
    ys: &[u16],
    enough: usize,
    firsts: &mut [u16],
    links: &mut [u16],
    heads: &mut [u16],
) -> usize
    requires { (Ready cells.now xs.now ys.now enough firsts.old links.old heads.old) × (length cells.now ≤ most_cells)
        × ((k : ℕ) → ink_in cells.now k < 2) × Nested ys.now (length ys.now) × (8 ≤ length ys.now) }
    ensures { Front (take enough (classes_over (ink_in cells.now) ys.now xs.now)) result firsts.new }
{
    let mut folded = [0u8; limits::MOST_CELLS];
    fold::fold_thrice(cells, ys, &mut folded);
    let columns = ys.len() / 8;
    counting::class_firsts(
        KEY_BASE,
        &folded,
        xs,
        &ys[0..columns],
        keys::key_width(KEY_COLUMNS, columns),
        enough,
        firsts,
        links,
        heads,
    )
}

// Puts the first of each class among the assignments xs to the front of `firsts`, stops at `enough` of them, and returns how many it put.
pub fn fast_firsts(
    m: usize,
    cells: &[u8],
    xs: &[u16],
    ys: &[u16],
    enough: usize,
    firsts: &mut [u16],
    links: &mut [u16],
    heads: &mut [u16],
) -> usize
    requires { (Ready cells.now xs.now ys.now enough firsts.old links.old heads.old) × (length cells.now ≤ most_cells)
        × (m ≤ most_levels) × ((k : ℕ) → ink_in cells.now k < m) × (m ≡ 2 → Nested ys.now (length ys.now)) }
    ensures { Front (take enough (classes_over (ink_in cells.now) ys.now xs.now)) result firsts.new }
{
    if pays(m, cells.len(), ys.len()) {
        return folded_firsts(cells, xs, ys, enough, firsts, links, heads);
    }
    let width = keys::key_width(keys::MOST_COLUMNS, ys.len());
    counting::class_firsts(m, cells, xs, ys, width, enough, firsts, links, heads)
}
