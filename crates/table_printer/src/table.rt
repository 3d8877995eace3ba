// The printer of a table sheet.
ghost use Rattle.std.specs.Prelude.{ℕ, ◌+◌, ◌≤◌, ◌<◌, ◌≡◌, length, get_or};
ghost use Rattle.rules.specs.Limits.{most_levels, most_inputs};
ghost use Rattle.rules.specs.Sheets.Sheets.{ink_byte};
ghost use Rattle.rules.specs.Sheets.Printed.{printed_rows, printed_table};
ghost use Rattle.net_sheets.specs.Text.Put.{Put, PutRoom, NetWrote};
ghost use Rattle.table_printer.specs.Rows.Rows.{row_text};
ghost use Rattle.nets.specs.Forms.{table_in};
ghost use Rattle.table_printer.specs.Tables.{TableInside};

use crate::rows::{ZEROS, next_words, wide_row};
use net_sheets::text::header::{print_names, print_pair};
use net_sheets::text::put::copy;
use nets::forms::Header;
use radix::levels::next_levels;
use radix::limits::MOST_INPUTS;
use table_reader::fast::words::Words;

// Returns the byte of an ink: its digit, or the sign of an open cell.
fn ink_byte(m: usize, ink: u8) -> u8
    requires { ink < 10 }
    ensures { result ≡ ink_byte m ink }
{
    if ink as usize == m {
        return b'-';
    }
    b'0' + ink
}

// Writes a row: each level followed by a space, then the byte of the ink and a line feed.
fn print_row(levels: &[u8], ink: u8, out: &mut [u8], at: usize) -> usize
    requires { ((k : ℕ) → k < length levels.now → get_or levels.now k 0 < 10) × PutRoom out.old at (row_text levels.now ink) }
    ensures { Put out.old at (row_text levels.now ink) out.new result }
{
    let mut p = at;
    for level in levels {
        out[p] = b'0' + *level;
        out[p + 1] = b' ';
        p += 2;
    }
    out[p] = ink;
    out[p + 1] = b'\n';
    p + 2
}

// Writes the rows of all cells, one level at a time.
fn narrow_rows(m: usize, n: usize, inks: &[u8], out: &mut [u8], at: usize) -> usize
    requires { (0 < m) × (m ≤ most_levels) × (n ≤ most_inputs)
        × ((k : ℕ) → k < length inks.now → get_or inks.now k 0 < 10) × PutRoom out.old at (printed_rows m n 0 inks.now) }
    ensures { Put out.old at (printed_rows m n 0 inks.now) out.new result }
{
    let mut levels = [0u8; MOST_INPUTS];
    let mut p = at;
    for ink in inks {
        p = print_row(&levels[..n], ink_byte(m, *ink), out, p);
        next_levels(m, n, &mut levels);
    }
    p
}

// Writes the rows of all cells, four levels at a time.
fn wide_rows(m: usize, n: usize, inks: &[u8], out: &mut [u8], at: usize) -> usize
    requires { (0 < m) × (m ≤ most_levels) × (4 ≤ n) × (n ≤ most_inputs)
        × ((k : ℕ) → k < length inks.now → get_or inks.now k 0 < 10) × PutRoom out.old at (printed_rows m n 0 inks.now) }
    ensures { Put out.old at (printed_rows m n 0 inks.now) out.new result }
{
    let mut levels = [0u8; MOST_INPUTS];
    let mut words = Words {
        first: ZEROS,
        middle: ZEROS,
        last: ZEROS,
    };
    let mut p = at;
    for ink in inks {
        p = wide_row(words, n, ink_byte(m, *ink), out, p);
        words = next_words(m, n, words, &mut levels);
    }
    p
}

fn print_rows(m: usize, n: usize, inks: &[u8], out: &mut [u8], at: usize) -> usize
    requires { (0 < m) × (m ≤ most_levels) × (n ≤ most_inputs)
        × ((k : ℕ) → k < length inks.now → get_or inks.now k 0 < 10) × PutRoom out.old at (printed_rows m n 0 inks.now) }
    ensures { Put out.old at (printed_rows m n 0 inks.now) out.new result }
{
    if n < 4 {
        return narrow_rows(m, n, inks, out, at);
    }
    wide_rows(m, n, inks, out, at)
}

// Writes the table sheet of the header's names and the inks to the front of `out`, and returns its length.
pub fn print_table(s: &[u8], h: Header, inks: &[u8], out: &mut [u8]) -> usize
    requires { TableInside s.now h inks.now × (length (printed_table (table_in s.now h inks.now)) ≤ length out.old) }
    ensures { NetWrote out.old (printed_table (table_in s.now h inks.now)) out.new result }
{
    let levels = h.levels;
    let inputs = h.inputs;
    let p = print_pair(b"levels inputs\n", levels, inputs, out, 0);
    let p = print_names(s, h, inputs, out, p);
    let p = copy(b"ink\n", out, p);
    print_rows(levels, inputs, inks, out, p)
}
