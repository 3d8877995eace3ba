// The first three lines, field by field. Each function reads the rest of them.
ghost use Rattle.std.specs.Prelude.{◌≡◌, true};
ghost use Rattle.rules.specs.Limits.{levels_fit};
ghost use Rattle.rules.specs.Sheets.Sheets.{header_lines, header_lines_in};
ghost use Rattle.fields.specs.Steps.{layout_of};
ghost use Rattle.fields.specs.Header.FirstLines.{HeaderRest, from_inputs, from_levels};

use crate::header::name_line::{HeaderRead, name_fields};
use crate::header::values::{inputs_field, levels_field};
use crate::steps::Layout;
use crate::words::two_words_in;
use answers::refusal::Refusal;

// Reads the header from the inputs field on.
pub fn from_inputs(
    s: &[u8],
    at: usize,
    levels: usize,
    last: u8,
    layout: Layout,
) -> Result<HeaderRead, Refusal>
    requires { levels_fit levels ≡ true }
    ensures { HeaderRest s.now at (from_inputs (layout_of layout) last levels) result }
{
    let inputs = inputs_field(s, at, levels, layout)?;
    name_fields(s, inputs.next, levels, inputs.value, last, layout)
}

// Reads the header from the levels field on.
pub fn from_levels(s: &[u8], at: usize, last: u8, layout: Layout) -> Result<HeaderRead, Refusal>
    ensures { HeaderRest s.now at (from_levels (layout_of layout) last) result }
{
    let levels = levels_field(s, at, layout)?;
    from_inputs(s, levels.next, levels.value, last, layout)
}

// Reads the first three lines; `last` is the separator that must follow the last name.
pub fn header_lines_in(s: &[u8], last: u8, layout: Layout) -> Result<HeaderRead, Refusal>
    ensures { HeaderRest s.now 0 (header_lines_in (layout_of layout) last) result }
{
    let words = two_words_in(s, 0, b"levels", b"inputs", layout)?;
    from_levels(s, words.next, last, layout)
}

// Does the same in a strict sheet.
pub fn header_lines(s: &[u8], last: u8) -> Result<HeaderRead, Refusal>
    ensures { HeaderRest s.now 0 (header_lines last) result }
{
    header_lines_in(s, last, Layout::Strict)
}
