// The two decimal values of line 2.
ghost use Rattle.std.specs.Prelude.{◌≡◌, ◌≤◌, drop};
ghost use Rattle.rules.specs.Limits.{most_levels};
ghost use Rattle.rules.specs.Sheets.Fields.{field_in};
ghost use Rattle.rules.specs.Sheets.Sheets.{levels_field, inputs_of, inputs_field};
ghost use Rattle.rules.specs.Text.{space_byte, newline_byte};
ghost use Rattle.fields.specs.Steps.{judged_as, step_as, itself, option_of, layout_of};

use crate::ends::after_field_in;
use crate::numbers::is_decimal;
use crate::runs::{NEWLINE, SPACE, ZERO, field_at};
use crate::steps::{Field, Layout};
use answers::refusal::{Kind, Refusal};
use radix::limits;
use radix::powers::power;

// Judges the number of levels.
pub fn judge_levels(w: &[u8]) -> Result<usize, Kind>
    ensures { judged_as itself result ≡ levels_field w.now }
{
    if w.len() != 1 {
        return Err(Kind::Levels);
    }
    let b = w[0] as usize;
    if b < ZERO + limits::FEWEST_LEVELS {
        return Err(Kind::Levels);
    }
    if ZERO + limits::MOST_LEVELS < b {
        return Err(Kind::Levels);
    }
    Ok(b - ZERO)
}

// Reads the levels field.
pub fn levels_field(s: &[u8], at: usize, layout: Layout) -> Result<Field, Refusal>
    ensures { step_as itself s.now result ≡ field_in (layout_of layout) levels_field space_byte (drop at s.now) at }
{
    let w = field_at(s, at);
    let verdict = judge_levels(w);
    after_field_in(s, at, w, verdict, SPACE, layout)
}

// Returns the number of inputs whose decimal value is w.
pub fn inputs_of(w: &[u8]) -> Option<usize>
    ensures { option_of result ≡ inputs_of w.now }
{
    for n in limits::FEWEST_INPUTS..=limits::MOST_INPUTS {
        if is_decimal(w, n) {
            return Some(n);
        }
    }
    None
}

// Judges the number of inputs.
pub fn judge_inputs(w: &[u8], m: usize) -> Result<usize, Kind>
    requires { m ≤ most_levels }
    ensures { judged_as itself result ≡ inputs_field m w.now }
{
    match inputs_of(w) {
        Some(n) if power(m, n) <= limits::MOST_CELLS => Ok(n),
        _ => Err(Kind::Inputs),
    }
}

// Reads the inputs field.
pub fn inputs_field(s: &[u8], at: usize, m: usize, layout: Layout) -> Result<Field, Refusal>
    requires { m ≤ most_levels }
    ensures { step_as itself s.now result ≡ field_in (layout_of layout) (inputs_field m) newline_byte (drop at s.now) at }
{
    let w = field_at(s, at);
    let verdict = judge_inputs(w, m);
    after_field_in(s, at, w, verdict, NEWLINE, layout)
}
