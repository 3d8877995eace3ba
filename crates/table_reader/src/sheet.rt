// A whole table sheet. Its names stay in the sheet, and its inks go to a buffer.
ghost use Rattle.std.specs.Prelude.{◌≤◌, length};
ghost use Rattle.rules.specs.Limits.{most_cells};
ghost use Rattle.fields.specs.Header.FirstLines.{HeaderRest};
ghost use Rattle.fields.specs.Steps.{layout_of};
ghost use Rattle.table_reader.specs.Head.{table_head};
ghost use Rattle.table_reader.specs.TableReading.{TableReads};

use crate::rows::rows;
use answers::refusal::Refusal;
use fields::ends::ended;
use fields::header::first_lines::header_lines_in;
use fields::header::name_line::HeaderRead;
use fields::runs::{NEWLINE, SPACE};
use fields::steps::Layout;
use fields::words::word_field_in;
use nets::forms::Header;

// Reads the first three lines of a table sheet: the header and the word `ink`.
pub fn table_head(s: &[u8], layout: Layout) -> Result<HeaderRead, Refusal>
    ensures { HeaderRest s.now 0 (table_head (layout_of layout)) result }
{
    let lines = header_lines_in(s, SPACE, layout)?;
    let word = word_field_in(s, lines.next, b"ink", NEWLINE, layout)?;
    Ok(HeaderRead {
        header: lines.header,
        next: word.next,
    })
}

// Reads a table sheet from any bytes; its inks go to the front of `cells`.
pub fn read_table(s: &[u8], cells: &mut [u8]) -> Result<Header, Refusal>
    requires { most_cells ≤ length cells.old }
    ensures { TableReads s.now cells.new result }
{
    let head = table_head(s, Layout::Strict)?;
    let header = head.header;
    let last = rows(s, head.next, header.levels, header.inputs, cells);
    ended(s, last)?;
    Ok(header)
}
