// A row: the input fields, which give the index of an assignment, and the ink.
ghost use Rattle.std.specs.Prelude.{◌≡◌, ◌^◌, ◌≤◌, true, length, drop};
ghost use Rattle.rules.specs.Limits.{size_fits, most_levels};
ghost use Rattle.loose_sheets.specs.Fast.Frame.{Framed};
ghost use Rattle.loose_sheets.specs.Reader.Index.{IndexRead};
ghost use Rattle.loose_sheets.specs.Reader.Row.{RowReads, row_as, ink_of_row};

use crate::fast::matching::framed_index;
use crate::reader::inks::ink_field;
use crate::reader::levels::level_field;
use answers::refusal::{Kind, Refusal};
use fields::steps::Field;

// A row that was read: the index of its assignment, its ink, and where reading continues.
#[derive(Clone, Copy)]
pub struct RowRead {
    pub index: usize,
    pub ink: usize,
    pub next: usize,
}

// Reads the n input fields one after the other. The value is the index.
fn judged_index(s: &[u8], at: usize, m: usize, n: usize) -> Result<Field, Refusal>
    requires { size_fits m n ≡ true }
    ensures { IndexRead s.now at m n result }
{
    let mut index = 0;
    let mut place = at;
    for _ in 0..n {
        let level = level_field(s, place, m)?;
        index = index * m + level.value;
        place = level.next;
    }
    Ok(Field {
        value: index,
        next: place,
    })
}

// Reads a row's levels and returns its index; levels that match the frame are read in one step.
fn index_fields(
    s: &[u8],
    at: usize,
    m: usize,
    n: usize,
    frame: &[u16],
    width: usize,
) -> Result<Field, Refusal>
    requires { (size_fits m n ≡ true) × Framed m n frame.now width }
    ensures { IndexRead s.now at m n result }
{
    match framed_index(s, at, frame, width) {
        None => judged_index(s, at, m, n),
        Some(value) => Ok(Field {
            value,
            next: at + width,
        }),
    }
}

// Reads the rest of a row that names the assignment of this index.
fn row_ink(s: &[u8], at: usize, m: usize, index: usize) -> Result<RowRead, Refusal>
    requires { m ≤ most_levels }
    ensures { row_as s.now result ≡ ink_of_row m index (drop at s.now) at }
{
    let ink = ink_field(s, at, m)?;
    Ok(RowRead {
        index,
        ink: ink.value,
        next: ink.next,
    })
}

// Reads one row. `given` has a 0 at each index that no earlier row named.
pub fn row(
    s: &[u8],
    at: usize,
    m: usize,
    n: usize,
    frame: &[u16],
    width: usize,
    given: &[u8],
) -> Result<RowRead, Refusal>
    requires { (size_fits m n ≡ true) × Framed m n frame.now width × (m ^ n ≤ length given.now) }
    ensures { RowReads s.now at m n given.now result }
{
    let index = index_fields(s, at, m, n, frame, width)?;
    if given[index.value] != 0 {
        return Err(Refusal {
            kind: Kind::RepeatedRow,
            place: at,
        });
    }
    row_ink(s, index.next, m, index.value)
}
