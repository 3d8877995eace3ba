// Bare cells of a full table: m, n and one byte for each cell in index order. The caller may pass any numbers and bytes.
ghost use Rattle.std.specs.Prelude.{◌≡◌};
ghost use Rattle.rules.specs.Calls.OpenCells.{full_cells};
ghost use Rattle.answers.specs.AnswerMaps.{outcome_as};

use crate::bound::first_at_least;
use answers::refusal::{Kind, Refusal};
use radix::powers;

// Returns refusal 9, 10 or 27, or accepts the cells as those of a full table.
pub fn full_cells(m: usize, n: usize, cells: &[u8]) -> Result<(), Refusal>
    ensures { outcome_as tt result ≡ full_cells m n cells.now }
{
    if !powers::size_fits(m, n) {
        return Err(Refusal {
            kind: Kind::BareSize,
            place: 0,
        });
    }
    if cells.len() != powers::power(m, n) {
        return Err(Refusal {
            kind: Kind::BareSize,
            place: 0,
        });
    }
    let open = first_at_least(m, cells);
    if cells.len() <= open {
        return Ok(());
    }
    let over = first_at_least(m + 1, cells);
    if over < cells.len() {
        Err(Refusal {
            kind: Kind::BareCell,
            place: over,
        })
    } else {
        Err(Refusal {
            kind: Kind::OpenCell,
            place: open,
        })
    }
}
