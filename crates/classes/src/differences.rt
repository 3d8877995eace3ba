// Compares two assignments of a group. Assignments of the group and of the other inputs are offsets into the cells.
ghost use Rattle.std.specs.Prelude.{◌≡◌, true, false, not, ℕ, ◌+◌, ◌≤◌, ◌<◌, length};
ghost use Rattle.rules.specs.Calls.Answers.{ink_in};
ghost use Rattle.rules.specs.Groups.Differences.{differ_at, difference_over};
ghost use Rattle.classes.specs.Differences.{difference_as};
ghost use Rattle.classes.specs.Within.{Within};

// Returns whether the ink is the same at p and at q, with assignment k of the other inputs added to both.
fn same_at(cells: &[u8], ys: &[u16], k: usize, p: usize, q: usize) -> bool
    requires { (k < length ys.now) × (Within (length cells.now) ys.now p) × (Within (length cells.now) ys.now q) }
    ensures { differ_at (ink_in cells.now) ys.now p q k ≡ not result }
{
    let y = ys[k] as usize;
    cells[p + y] == cells[q + y]
}

// Returns whether the inks are the same for each of the four assignments from k on.
fn four_same(cells: &[u8], ys: &[u16], k: usize, p: usize, q: usize) -> bool
    requires { (k + 3 < length ys.now) × (Within (length cells.now) ys.now p) × (Within (length cells.now) ys.now q) }
    ensures { result ≡ true → (j : ℕ) → k ≤ j → j < k + 4 → differ_at (ink_in cells.now) ys.now p q j ≡ false }
{
    same_at(cells, ys, k, p, q)
        && same_at(cells, ys, k + 1, p, q)
        && same_at(cells, ys, k + 2, p, q)
        && same_at(cells, ys, k + 3, p, q)
}

// Returns an index before which all inks are the same. Compares four at a time.
fn same_front(cells: &[u8], ys: &[u16], p: usize, q: usize) -> usize
    requires { (Within (length cells.now) ys.now p) × (Within (length cells.now) ys.now q) }
    ensures { (result ≤ length ys.now) × ((j : ℕ) → j < result → differ_at (ink_in cells.now) ys.now p q j ≡ false) }
{
    let fours = ys.len() / 4;
    for i in 0..fours {
        if !four_same(cells, ys, 4 * i, p, q) {
            return 4 * i;
        }
    }
    4 * fours
}

// Returns the first index into the assignments ys of the other inputs at which the inks of p and q differ.
pub fn first_difference(cells: &[u8], ys: &[u16], p: usize, q: usize) -> Option<usize>
    requires { (Within (length cells.now) ys.now p) × (Within (length cells.now) ys.now q) }
    ensures { difference_as result ≡ difference_over (ink_in cells.now) ys.now p q }
{
    for k in same_front(cells, ys, p, q)..ys.len() {
        if !same_at(cells, ys, k, p, q) {
            return Some(k);
        }
    }
    None
}
