// Room for the cells and the marks of a table: refusals 13 and 14 of every call that has both buffers.
ghost use Rattle.std.specs.Prelude.{◌≡◌, true, List, ℕ, ◌^◌, length};
ghost use Rattle.rules.specs.Limits.{size_fits};
ghost use Rattle.rules.specs.Calls.Settling.{room_for};
ghost use Rattle.nets.specs.Forms.{table_in};
ghost use Rattle.answers.specs.AnswerMaps.{outcome_as};

use answers::refusal::{Kind, Refusal};
use marks::packing;
use nets::forms::Header;

// Checks whether the cells and the marks buffer are long enough. `inks` is the table, and `header` has its levels and inputs.
pub fn room(header: Header, inks: &[u8], cells: &[u8], marks: &[u8]) -> Result<(), Refusal>
    requires { (size_fits header.levels header.inputs ≡ true) × (length inks.now ≡ header.levels ^ header.inputs) }
    ensures { (s : List ℕ) → outcome_as tt result ≡ room_for (table_in s header inks.now) cells.now marks.now }
{
    let need = inks.len();
    if cells.len() < need {
        return Err(Refusal {
            kind: Kind::CellsShort,
            place: need,
        });
    }
    let marks_need = packing::marks_length(header.inputs);
    if marks.len() < marks_need {
        return Err(Refusal {
            kind: Kind::MarksShort,
            place: marks_need,
        });
    }
    Ok(())
}
