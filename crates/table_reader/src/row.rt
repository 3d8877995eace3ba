// A row of a table sheet.
ghost use Rattle.std.specs.Prelude.{◌≡◌, ◌≤◌, length, take, drop};
ghost use Rattle.fields.specs.Steps.{step_as, itself};
ghost use Rattle.table_reader.specs.Row.{row_line};

use crate::inks::ink_field;
use crate::levels::level_field;
use answers::refusal::Refusal;
use fields::steps::{Field, Layout};

// Reads a row: the first n of `levels`, then the ink, which is the value.
pub fn row(s: &[u8], at: usize, levels: &[u8], n: usize, m: usize) -> Result<Field, Refusal>
    requires { n ≤ length levels.now }
    ensures { step_as itself s.now result ≡ row_line m (take n levels.now) (drop at s.now) at }
{
    let mut place = at;
    for level in &levels[..n] {
        place = level_field(s, place, *level)?.next;
    }
    ink_field(s, place, m, Layout::Strict)
}
