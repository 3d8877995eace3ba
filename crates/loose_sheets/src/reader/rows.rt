// The rows of a loose sheet, in any order.
ghost use Rattle.std.specs.Prelude.{◌≡◌, ◌^◌, ◌≤◌, true, length};
ghost use Rattle.rules.specs.Limits.{size_fits};
ghost use Rattle.loose_sheets.specs.Reader.Rows.{LooseRowsRead, Blank};

use crate::fast::frame::{FRAME, lay};
use crate::reader::row::row;
use answers::refusal::Refusal;
use fields::steps::Field;
use radix::limits::MOST_CELLS;
use radix::powers::power;

// Reads as many rows as there are cells, starting at `at`. Each ink goes to its index in `cells`, which must hold zeros.
pub fn rows(s: &[u8], at: usize, m: usize, n: usize, cells: &mut [u8]) -> Result<Field, Refusal>
    requires { (size_fits m n ≡ true) × (m ^ n ≤ length cells.old) × Blank cells.old }
    ensures { LooseRowsRead s.now at m n cells.new result }
{
    let mut given = [0u8; MOST_CELLS];
    let mut frame = [0u16; FRAME];
    let width = lay(s, at, m, n, &mut frame);
    let mut place = at;
    for _row in 0..power(m, n) {
        let read = row(s, place, m, n, &frame, width, &given)?;
        cells[read.index] = read.ink as u8;
        given[read.index] = 1;
        place = read.next;
    }
    Ok(Field {
        value: 0,
        next: place,
    })
}
