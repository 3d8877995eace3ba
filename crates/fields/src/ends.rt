// A field's verdict, the separator required after it, and the end of a sheet.
ghost use Rattle.std.specs.Prelude.{◌≡◌, drop};
ghost use Rattle.rules.specs.Sheets.Fields.{run, separator, loose_separator, separator_in};
ghost use Rattle.answers.specs.AnswerMaps.{outcome_as};
ghost use Rattle.fields.specs.Chained.{end_of};
ghost use Rattle.fields.specs.Steps.{tested, judged_field, judged_field_in, step_as, itself, layout_of};

use crate::runs::{SPACE, spaces_end};
use crate::steps::{Field, Layout};
use answers::refusal::{Kind, Refusal};

// Returns the verdict of a test: the value, or the kind of refusal.
pub fn judged(test: bool, value: usize, kind: Kind) -> Result<usize, Kind>
    ensures { result ≡ tested test value kind }
{
    if test {
        return Ok(value);
    }
    Err(kind)
}

// Checks that `due` follows a field with this value, at `end`.
pub fn separated(s: &[u8], end: usize, value: usize, due: u8) -> Result<Field, Refusal>
    ensures { step_as itself s.now result ≡ separator value due (drop end s.now) end }
{
    if end < s.len() {
        if s[end] == due {
            return Ok(Field {
                value,
                next: end + 1,
            });
        }
    }
    Err(Refusal {
        kind: Kind::Layout,
        place: end,
    })
}

// Does the same in a loose sheet: further spaces may follow a space, and any may precede a line feed.
pub fn loosely_separated(s: &[u8], end: usize, value: usize, due: u8) -> Result<Field, Refusal>
    ensures { step_as itself s.now result ≡ loose_separator value due (drop end s.now) end }
{
    if due != SPACE {
        return separated(s, spaces_end(s, end), value, due);
    }
    let field = separated(s, end, value, due)?;
    Ok(Field {
        value: field.value,
        next: spaces_end(s, field.next),
    })
}

// Does the same in either layout.
pub fn separated_in(
    s: &[u8],
    end: usize,
    value: usize,
    due: u8,
    layout: Layout,
) -> Result<Field, Refusal>
    ensures { step_as itself s.now result ≡ separator_in (layout_of layout) value due (drop end s.now) end }
{
    match layout {
        Layout::Strict => separated(s, end, value, due),
        Layout::Loose => loosely_separated(s, end, value, due),
    }
}

// Continues after the judged field w at `at`: an empty or bad field refuses the sheet, and `due` must follow a good one.
pub fn after_field_in(
    s: &[u8],
    at: usize,
    w: &[u8],
    verdict: Result<usize, Kind>,
    due: u8,
    layout: Layout,
) -> Result<Field, Refusal>
    requires { w.now ≡ run (drop at s.now) }
    ensures { step_as itself s.now result ≡ judged_field_in (layout_of layout) verdict due s.now at }
{
    if w.len() == 0 {
        return Err(Refusal {
            kind: Kind::Layout,
            place: at,
        });
    }
    match verdict {
        Err(kind) => Err(Refusal { kind, place: at }),
        Ok(value) => separated_in(s, at + w.len(), value, due, layout),
    }
}

// Does the same in a strict sheet.
pub fn after_field(
    s: &[u8],
    at: usize,
    w: &[u8],
    verdict: Result<usize, Kind>,
    due: u8,
) -> Result<Field, Refusal>
    requires { w.now ≡ run (drop at s.now) }
    ensures { step_as itself s.now result ≡ judged_field verdict due s.now at }
{
    after_field_in(s, at, w, verdict, due, Layout::Strict)
}

// Returns the outcome of a sheet whose last line gave `last`: nothing may follow that line.
pub fn ended(s: &[u8], last: Result<Field, Refusal>) -> Result<(), Refusal>
    ensures { outcome_as tt result ≡ end_of s.now last }
{
    let next = last?.next;
    if next < s.len() {
        return Err(Refusal {
            kind: Kind::Layout,
            place: next,
        });
    }
    Ok(())
}
