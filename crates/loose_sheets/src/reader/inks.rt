// The ink field of a row.
ghost use Rattle.std.specs.Prelude.{◌≡◌, ◌≤◌, drop};
ghost use Rattle.rules.specs.Limits.{most_levels};
ghost use Rattle.rules.specs.Text.{newline_byte};
ghost use Rattle.rules.specs.Sheets.Fields.{field_in, loose};
ghost use Rattle.rules.specs.Sheets.Sheets.{ink_field};
ghost use Rattle.fields.specs.Steps.{step_as, itself};

use crate::fast::plain::plain_digit;
use answers::refusal::Refusal;
use fields::runs::NEWLINE;
use fields::steps::{Field, Layout};
use table_reader::inks;

// Reads an ink field; a digit and a line feed are recognised in one step.
pub fn ink_field(s: &[u8], at: usize, m: usize) -> Result<Field, Refusal>
    requires { m ≤ most_levels }
    ensures { step_as itself s.now result ≡ field_in loose (ink_field m) newline_byte (drop at s.now) at }
{
    match plain_digit(s, at, m, NEWLINE) {
        None => inks::ink_field(s, at, m, Layout::Loose),
        Some(value) => Ok(Field {
            value,
            next: at + 2,
        }),
    }
}
