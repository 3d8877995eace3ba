// The comparison of a net's table with a table sheet's inks.
ghost use Rattle.std.specs.Prelude.{◌≡◌, true, false, Ok, ◌≤◌, length};
ghost use Rattle.rules.specs.Calls.Checking.{compared};
ghost use Rattle.checking.specs.CheckAnswers.{comparison_of, checked_of, compared_into};

use crate::same::all_same;
use net_sheets::text::put::copy;

// Returns whether a net's ink x and a table's ink y differ. An open cell, which holds m, differs from no ink.
fn differs(m: usize, x: u8, y: u8) -> bool
    ensures { (result ≡ true → (y ≡ m → ⊥) × (x ≡ y → ⊥)) × (result ≡ false → (y ≡ m → ⊥) → x ≡ y) }
{
    x != y && y as usize != m
}

// Returns the lowest index at which xs and ys differ, if any. They are the inks of a table of m levels.
fn compare(xs: &[u8], ys: &[u8], m: usize) -> Option<usize>
    requires { length xs.now ≤ length ys.now }
    ensures { comparison_of result ≡ compared m xs.now ys.now }
{
    xs.iter().zip(ys).position(|(x, y)| differs(m, *x, *y))
}

// Puts the inks in the cells buffer, and returns the lowest index at which the net's table differs from them, if any. Usually the two are the same, so
// a quick test for that comes first.
pub fn compare_into(table: &[u8], inks: &[u8], cells: &mut [u8], m: usize) -> Option<usize>
    requires { (length table.now ≤ length inks.now) × (length inks.now ≤ length cells.old) }
    ensures { checked_of (Ok result) cells.new ≡ compared_into m table.now inks.now cells.old }
{
    copy(inks, cells, 0);
    if all_same(table, inks) {
        return None;
    }
    compare(table, inks, m)
}
