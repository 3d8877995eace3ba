// The ink field of a row.
ghost use Rattle.std.specs.Prelude.{◌≡◌, drop};
ghost use Rattle.rules.specs.Sheets.Fields.{field_in};
ghost use Rattle.rules.specs.Sheets.Sheets.{ink_field};
ghost use Rattle.rules.specs.Text.{newline_byte};
ghost use Rattle.fields.specs.Steps.{judged_as, step_as, itself, layout_of};

use crate::digits::judge_digit;
use answers::refusal::{Kind, Refusal};
use fields::ends::after_field_in;
use fields::runs::{NEWLINE, field_at};
use fields::same::same_bytes;
use fields::steps::{Field, Layout};

// The sign of an open cell.
pub const OPEN: usize = b'-' as usize;

// Judges an ink: a digit below m, or the sign of an open cell, whose value is m.
pub fn judge_ink(w: &[u8], m: usize) -> Result<usize, Kind>
    ensures { judged_as itself result ≡ ink_field m w.now }
{
    if same_bytes(w, b"-") {
        return Ok(m);
    }
    judge_digit(w, m, Kind::Digits)
}

// Reads an ink field.
pub fn ink_field(s: &[u8], at: usize, m: usize, layout: Layout) -> Result<Field, Refusal>
    ensures { step_as itself s.now result ≡ field_in (layout_of layout) (ink_field m) newline_byte (drop at s.now) at }
{
    let w = field_at(s, at);
    let verdict = judge_ink(w, m);
    after_field_in(s, at, w, verdict, NEWLINE, layout)
}
