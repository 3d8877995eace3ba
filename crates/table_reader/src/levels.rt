// An input level of a row: the next one in counting order.
ghost use Rattle.std.specs.Prelude.{◌≡◌, [], ◌∷◌, drop};
ghost use Rattle.rules.specs.Lists.{same};
ghost use Rattle.rules.specs.Text.{digit_byte, space_byte};
ghost use Rattle.rules.specs.Sheets.Fields.{field};
ghost use Rattle.rules.specs.Sheets.Sheets.{level_field};
ghost use Rattle.fields.specs.Steps.{step_as, nothing};

use answers::refusal::{Kind, Refusal};
use fields::ends::{after_field, judged};
use fields::runs::{SPACE, ZERO, field_at};
use fields::steps::Field;

// Tests whether w is the digit `due`.
pub fn is_level(w: &[u8], due: u8) -> bool
    ensures { result ≡ same w.now (digit_byte due ∷ []) }
{
    w.len() == 1 && w[0] as usize == ZERO + due as usize
}

// Reads the level field of the level `due`.
pub fn level_field(s: &[u8], at: usize, due: u8) -> Result<Field, Refusal>
    ensures { step_as nothing s.now result ≡ field (level_field due) space_byte (drop at s.now) at }
{
    let w = field_at(s, at);
    let verdict = judged(is_level(w, due), 0, Kind::Row);
    after_field(s, at, w, verdict, SPACE)
}
