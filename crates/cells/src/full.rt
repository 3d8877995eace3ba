// Full tables: no cell is open. An open cell holds m.
ghost use Rattle.std.specs.Prelude.{◌≡◌, ℕ, ◌≤◌, ◌<◌, length, get_or};
ghost use Rattle.rules.specs.Limits.{most_levels};
ghost use Rattle.rules.specs.Calls.OpenCells.{full};
ghost use Rattle.answers.specs.AnswerMaps.{outcome_as};

use crate::bound::first_at_least;
use answers::refusal::{Kind, Refusal};

// Returns refusal 27 with the index of the first open cell, or accepts the cells if none is open.
pub fn judge_full(m: usize, cells: &[u8]) -> Result<(), Refusal>
    requires { (m ≤ most_levels) × ((p : ℕ) → p < length cells.now → get_or cells.now p 0 ≤ m) }
    ensures { outcome_as tt result ≡ full m cells.now }
{
    let k = first_at_least(m, cells);
    if k < cells.len() {
        return Err(Refusal {
            kind: Kind::OpenCell,
            place: k,
        });
    }
    Ok(())
}
