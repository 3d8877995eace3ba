// A whole loose table sheet. Its names stay in the sheet, and its inks go to a buffer in index order.
ghost use Rattle.std.specs.Prelude.{◌≤◌, length};
ghost use Rattle.rules.specs.Limits.{most_cells};
ghost use Rattle.loose_sheets.specs.Reader.Rows.{Blank};
ghost use Rattle.loose_sheets.specs.Reader.LooseReading.{LooseReads};

use crate::reader::rows::rows;
use answers::refusal::Refusal;
use fields::ends::ended;
use fields::steps::Layout;
use nets::forms::Header;
use table_reader::sheet::table_head;

// Reads a loose table sheet from any bytes. Its inks go to the front of `cells`, in index order; `cells` must hold zeros.
pub fn read_loose(s: &[u8], cells: &mut [u8]) -> Result<Header, Refusal>
    requires { (most_cells ≤ length cells.old) × Blank cells.old }
    ensures { LooseReads s.now cells.new result }
{
    let head = table_head(s, Layout::Loose)?;
    let header = head.header;
    let last = rows(s, head.next, header.levels, header.inputs, cells);
    ended(s, last)?;
    Ok(header)
}
