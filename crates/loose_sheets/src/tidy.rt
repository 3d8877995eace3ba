// The tidying call: turns a loose table sheet into the table sheet of document 01, and puts its inks in the cells buffer.
ghost use Rattle.std.specs.Prelude.{◌≡◌, ℕ, ◌≤◌, List, length};
ghost use Rattle.rules.specs.Limits.{most_cells};
ghost use Rattle.rules.specs.Sheets.Printed.{printed_table};
ghost use Rattle.rules.specs.Calls.Tidying.{tidied_sheet, tidy_call};
ghost use Rattle.nets.specs.Forms.{table_in};
ghost use Rattle.table_printer.specs.Tables.{TableInside};
ghost use Rattle.table_reader.specs.TableReading.{inks_in};
ghost use Rattle.loose_sheets.specs.Tidying.{LooseTaken, Itself, tidied_of};

use crate::reader::sheet::read_loose;
use answers::refusal::{Kind, Refusal};
use fields::runs::NEWLINE;
use net_sheets::text::put::copy;
use nets::forms::Header;
use radix::limits::MOST_CELLS;
use radix::powers::power;
use table_printer::lengths::table_length;
use table_printer::table::print_table;
use table_reader::sheet::read_table;

// Writes the table sheet of the header's names and the inks and returns its length, or refuses with 15. If `strict`, s is already that sheet.
fn write_sheet(
    s: &[u8],
    header: Header,
    inks: &[u8],
    strict: bool,
    out: &mut [u8],
) -> Result<usize, Refusal>
    requires { TableInside s.now header inks.now × (length inks.now ≤ most_cells) × Itself strict s.now header inks.now }
    ensures { (cells : List ℕ) → tidied_of result cells out.new
        ≡ tidied_sheet (printed_table (table_in s.now header inks.now)) cells out.old }
{
    let need = table_length(header, inks.len());
    if out.len() < need {
        return Err(Refusal {
            kind: Kind::OutputShort,
            place: need,
        });
    }
    if strict {
        return Ok(copy(s, out, 0));
    }
    Ok(print_table(s, header, inks, out))
}

// Copies the inks of an accepted sheet from the front of `inks` to the cells buffer and writes the table sheet, or refuses with 13 or 15.
fn tidy_accepted(
    s: &[u8],
    header: Header,
    inks: &[u8],
    strict: bool,
    cells: &mut [u8],
    out: &mut [u8],
) -> Result<usize, Refusal>
    requires { LooseTaken s.now header inks.now × Itself strict s.now header (inks_in inks.now header) }
    ensures { tidied_of result cells.new out.new ≡ tidy_call s.now cells.old out.old }
{
    let count = power(header.levels, header.inputs);
    if cells.len() < count {
        return Err(Refusal {
            kind: Kind::CellsShort,
            place: count,
        });
    }
    let table = &inks[..count];
    copy(table, cells, 0);
    write_sheet(s, header, table, strict, out)
}

// Tidies a sheet by reading it as a loose one.
fn tidy_loose(sheet: &[u8], cells: &mut [u8], out: &mut [u8]) -> Result<usize, Refusal>
    ensures { tidied_of result cells.new out.new ≡ tidy_call sheet.now cells.old out.old }
{
    let mut inks = [0u8; MOST_CELLS];
    let header = read_loose(sheet, &mut inks)?;
    tidy_accepted(sheet, header, &inks, false, cells, out)
}

// Tests whether every second byte of the last row up to its ink is the same, as in the last row of a table sheet. No promise depends on this: it only
// decides which way of reading is tried first.
fn ends_at_top(s: &[u8]) -> bool {
    if s.len() < 4 {
        return false;
    }
    let top = s[s.len() - 4];
    for pair in s[1..s.len() - 3].rchunks_exact(2) {
        if pair[1] != top {
            return false;
        }
        if pair[0] == NEWLINE {
            return true;
        }
    }
    false
}

// Puts the inks of a loose table sheet in the cells buffer, in index order, writes its table sheet to the front of `out`, and returns the length.
// The sheet may be any bytes. If it ends like a table sheet, the table reader is tried first, which is faster: a strict sheet is copied unchanged.
pub fn tidy(sheet: &[u8], cells: &mut [u8], out: &mut [u8]) -> Result<usize, Refusal>
    ensures { tidied_of result cells.new out.new ≡ tidy_call sheet.now cells.old out.old }
{
    if !ends_at_top(sheet) {
        return tidy_loose(sheet, cells, out);
    }
    let mut inks = [0u8; MOST_CELLS];
    match read_table(sheet, &mut inks) {
        Err(_) => tidy_loose(sheet, cells, out),
        Ok(header) => tidy_accepted(sheet, header, &inks, true, cells, out),
    }
}
