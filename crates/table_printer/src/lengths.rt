// The length of a table sheet.
ghost use Rattle.std.specs.Prelude.{◌≡◌, List, ℕ, ◌*◌, ◌≤◌, length};
ghost use Rattle.rules.specs.Limits.{most_inputs, most_cells};
ghost use Rattle.rules.specs.Text.{decimal};
ghost use Rattle.rules.specs.Sheets.Printed.{printed_table};
ghost use Rattle.net_sheets.specs.Text.Names.{NamesInside};
ghost use Rattle.nets.specs.Forms.{table_in};
ghost use Rattle.table_printer.specs.Lengths.{lens_total, most_decimal};

use nets::forms::Header;

// Returns how many digits k has.
pub fn decimal_length(k: usize) -> usize
    ensures { (result ≡ length (decimal k)) × (result ≤ most_decimal) }
{
    let mut digits: usize = 1;
    let mut rest: usize = k;
    while 10 <= rest {
        rest = rest / 10;
        digits += 1;
    }
    digits
}

// Returns the length of all names, each with the space after it.
pub fn names_length(h: Header) -> usize
    requires { h.inputs ≤ most_inputs }
    ensures { (result ≡ lens_total h.lens h.inputs) × (result ≤ 256 * h.inputs) }
{
    let mut total = 0;
    for len in &h.lens[..h.inputs] {
        total += usize::from(*len) + 1;
    }
    total
}

// `levels inputs`, the space of line 2, `ink`, and the line feeds of the three lines.
const FIXED: usize = 20;

// Returns the length of the table sheet with the header's names and one ink for each cell.
pub fn table_length(h: Header, cells: usize) -> usize
    requires { (h.inputs ≤ most_inputs) × (cells ≤ most_cells) }
    ensures { (s inks : List ℕ) → NamesInside s h → length inks ≡ cells → result ≡ length (printed_table (table_in s h inks)) }
{
    let levels = h.levels;
    let inputs = h.inputs;
    let values = decimal_length(levels) + decimal_length(inputs);
    FIXED + values + names_length(h) + cells * (2 * inputs + 2)
}
