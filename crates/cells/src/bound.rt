// The first cell that is at least a bound. Refusal 10 uses the bound m + 1, refusal 27 the bound m.
ghost use Rattle.std.specs.Prelude.{◌≡◌, false, ℕ, ◌+◌, ◌≤◌, ◌<◌, length, get_or};
ghost use Rattle.rules.specs.Limits.{most_levels};
ghost use Rattle.cells.specs.Bound.{FirstAtLeast};

// Returns false only if every cell is below `bound`. The loop has no early exit, so the compiler can vectorise it.
fn some_at_least(bound: usize, cells: &[u8]) -> bool
    requires { bound ≤ most_levels + 1 }
    ensures { result ≡ false → (p : ℕ) → p < length cells.now → get_or cells.now p 0 < bound }
{
    let least = bound as u8;
    let mut found: u8 = 0;
    for cell in cells {
        if least <= *cell {
            found = 1;
        }
    }
    found != 0
}

// Returns the index of the first cell that is at least `bound`, or the number of cells if there is none.
pub fn first_at_least(bound: usize, cells: &[u8]) -> usize
    requires { bound ≤ most_levels + 1 }
    ensures { FirstAtLeast bound cells.now result }
{
    if !some_at_least(bound, cells) {
        return cells.len();
    }
    for (k, cell) in cells.iter().enumerate() {
        if bound <= *cell as usize {
            return k;
        }
    }
    cells.len()
}
