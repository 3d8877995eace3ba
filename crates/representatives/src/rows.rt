// Compares two rows over columns that are given as heads and a run: each head plus each number below the run.
ghost use Rattle.std.specs.Prelude.{◌≡◌, true, ◌+◌, ◌≤◌, ◌<◌, length, MatchOption};
ghost use Rattle.rules.specs.Calls.Answers.{ink_in};
ghost use Rattle.classes.specs.Within.{Within};
ghost use Rattle.representatives.specs.Apart.{PlaceApart};
ghost use Rattle.representatives.specs.Columns.{columns_of, Column, ApartBy};
ghost use Rattle.representatives.specs.Runs.{SameRuns, RunApart};

use classes::differences;

// Returns whether the eight cells from a on equal those from b on. Compares all eight, as one word: `==` of slices takes up to six times as long.
fn eight_same(cells: &[u8], a: usize, b: usize) -> bool
    requires { (a + 8 ≤ length cells.now) × (b + 8 ≤ length cells.now) }
    ensures { result ≡ true → SameRuns (ink_in cells.now) a b 8 }
{
    let mut same = true;
    for k in 0..8 {
        if cells[a + k] != cells[b + k] {
            same = false;
        }
    }
    same
}

// Returns a position before which the runs that start at a and b are the same. Compares eight cells at a time.
fn same_front(cells: &[u8], a: usize, b: usize, run: usize) -> usize
    requires { (a + run ≤ length cells.now) × (b + run ≤ length cells.now) }
    ensures { (result ≤ run) × (SameRuns (ink_in cells.now) a b result) }
{
    // With `for k in 0..run / 8` marking takes up to a fifth longer.
    let mut z: usize = 0;
    while z + 7 < run {
        if !eight_same(cells, a + z, b + z) {
            return z;
        }
        z += 8;
    }
    z
}

// Returns the first position at which the two runs differ.
fn run_apart(cells: &[u8], a: usize, b: usize, run: usize) -> Option<usize>
    requires { (a + run ≤ length cells.now) × (b + run ≤ length cells.now) }
    ensures { MatchOption result (SameRuns (ink_in cells.now) a b run) (λ z. RunApart (ink_in cells.now) a b run z) }
{
    for z in same_front(cells, a, b, run)..run {
        if cells[a + z] != cells[b + z] {
            return Some(z);
        }
    }
    None
}

// Returns a column at which p and q differ, or `None`.
fn runs_apart(cells: &[u8], heads: &[u16], run: usize, p: usize, q: usize) -> Option<usize>
    requires { (0 < run) × (Within (length cells.now) (columns_of run heads.now) p) × (Within (length cells.now) (columns_of run heads.now) q) }
    ensures { ApartBy (ink_in cells.now) (columns_of run heads.now) p q result }
{
    for head in heads {
        let h = *head as usize;
        if let Some(z) = run_apart(cells, p + h, q + h, run) {
            return Some(h + z);
        }
    }
    None
}

// Does the same where the heads are the columns.
fn heads_apart(cells: &[u8], heads: &[u16], p: usize, q: usize) -> Option<usize>
    requires { (Within (length cells.now) heads.now p) × (Within (length cells.now) heads.now q) }
    ensures { ApartBy (ink_in cells.now) heads.now p q result }
{
    let k = differences::first_difference(cells, heads, p, q)?;
    Some(heads[k] as usize)
}

// Does the same for any run. If the run is one cell, the heads are the columns.
pub fn column_apart(cells: &[u8], heads: &[u16], run: usize, p: usize, q: usize) -> Option<usize>
    requires { (0 < run) × (Within (length cells.now) (columns_of run heads.now) p) × (Within (length cells.now) (columns_of run heads.now) q) }
    ensures { ApartBy (ink_in cells.now) (columns_of run heads.now) p q result }
{
    if run == 1 {
        return heads_apart(cells, heads, p, q);
    }
    runs_apart(cells, heads, run, p, q)
}

// Returns a column at which p and q differ, or `other` if they are alike.
pub fn place_apart(
    cells: &[u8],
    heads: &[u16],
    run: usize,
    p: usize,
    q: usize,
    other: usize,
) -> usize
    requires { (0 < run) × (Column (columns_of run heads.now) other) × (Within (length cells.now) (columns_of run heads.now) p)
        × (Within (length cells.now) (columns_of run heads.now) q) }
    ensures { PlaceApart (ink_in cells.now) (columns_of run heads.now) p q result }
{
    column_apart(cells, heads, run, p, q).unwrap_or(other)
}
