// A field of one digit.
ghost use Rattle.std.specs.Prelude.{◌≡◌};
ghost use Rattle.answers.specs.Kinds.{number_of};
ghost use Rattle.fields.specs.Steps.{judged_as, itself};
ghost use Rattle.table_reader.specs.Digits.{digit_below};

use answers::refusal::Kind;
use fields::runs::ZERO;

// Judges a field that must be one digit below m. Any other field is refused with `kind`.
pub fn judge_digit(w: &[u8], m: usize, kind: Kind) -> Result<usize, Kind>
    ensures { judged_as itself result ≡ digit_below m (number_of kind) w.now }
{
    if w.len() != 1 {
        return Err(kind);
    }
    let b = w[0] as usize;
    if b < ZERO {
        return Err(kind);
    }
    if m <= b - ZERO {
        return Err(kind);
    }
    Ok(b - ZERO)
}
