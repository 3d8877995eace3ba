// Full tables, as one value.
ghost use Rattle.cells.specs.Full.{Full};

use crate::bare::full_cells;
use answers::refusal::Refusal;

// A full table: its levels, its inputs, and for each assignment, in index order, an ink below levels.
#[derive(Clone, Copy)]
pub struct Table<'a> {
    pub levels: usize,
    pub inputs: usize,
    pub cells: &'a [u8],
    ghost full: { Full levels inputs cells.now },
}

impl<'a> Table<'a> {
    ghost use Rattle.cells.specs.Tables.{FullRead};

    // Returns refusal 9, 10 or 27, or the table of these cells. The caller may pass any numbers and bytes.
    pub fn full(levels: usize, inputs: usize, cells: &'a [u8]) -> Result<Table<'a>, Refusal>
        ensures { FullRead levels inputs cells.now result }
    {
        full_cells(levels, inputs, cells)?;
        Ok(Table {
            levels,
            inputs,
            cells,
        })
    }
}
