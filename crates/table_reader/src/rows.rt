// The rows of a table sheet, one for each cell.
ghost use Rattle.std.specs.Prelude.{◌≡◌, true, ◌^◌, ◌≤◌, length};
ghost use Rattle.rules.specs.Limits.{size_fits};
ghost use Rattle.table_reader.specs.Fast.Rows.{RowsRead};

use crate::fast::blocks::due_rows;
use crate::row::row;
use answers::refusal::Refusal;
use fields::steps::Field;
use radix::levels::next_levels;
use radix::limits::MOST_INPUTS;
use radix::powers::power;

// Reads all rows, starting with index 0 at `at`; their inks go to the front of `cells`. Rows without the expected bytes are judged field by field.
pub fn rows(s: &[u8], at: usize, m: usize, n: usize, cells: &mut [u8]) -> Result<Field, Refusal>
    requires { (size_fits m n ≡ true) × (m ^ n ≤ length cells.old) }
    ensures { RowsRead s.now at m n cells.new result }
{
    let mut levels = [0u8; MOST_INPUTS];
    let count = power(m, n);
    let taken = due_rows(s, at, m, n, &mut levels, cells);
    let mut place = taken.place;
    for p in taken.rows..count {
        let ink = row(s, place, &levels, n, m)?;
        cells[p] = ink.value as u8;
        next_levels(m, n, &mut levels);
        place = ink.next;
    }
    Ok(Field {
        value: 0,
        next: place,
    })
}
