// An input field of a row: any digit below m.
ghost use Rattle.std.specs.Prelude.{◌≡◌, ◌≤◌, drop};
ghost use Rattle.rules.specs.Limits.{most_levels};
ghost use Rattle.rules.specs.Text.{space_byte};
ghost use Rattle.rules.specs.Sheets.Fields.{field_in, loose};
ghost use Rattle.rules.specs.Sheets.LooseSheet.{any_level};
ghost use Rattle.fields.specs.Steps.{step_as, itself};

use crate::fast::plain::plain_digit;
use answers::refusal::{Kind, Refusal};
use fields::ends::after_field_in;
use fields::runs::{SPACE, field_at, spaces_end};
use fields::steps::{Field, Layout};
use table_reader::digits::judge_digit;

// Reads a level field by its run of bytes.
pub fn judged_level(s: &[u8], at: usize, m: usize) -> Result<Field, Refusal>
    ensures { step_as itself s.now result ≡ field_in loose (any_level m) space_byte (drop at s.now) at }
{
    let w = field_at(s, at);
    let verdict = judge_digit(w, m, Kind::Row);
    after_field_in(s, at, w, verdict, SPACE, Layout::Loose)
}

// Reads a level field; a digit and a space are recognised in one step.
pub fn level_field(s: &[u8], at: usize, m: usize) -> Result<Field, Refusal>
    requires { m ≤ most_levels }
    ensures { step_as itself s.now result ≡ field_in loose (any_level m) space_byte (drop at s.now) at }
{
    match plain_digit(s, at, m, SPACE) {
        None => judged_level(s, at, m),
        Some(value) => Ok(Field {
            value,
            next: spaces_end(s, at + 2),
        }),
    }
}
