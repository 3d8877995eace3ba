// The check call: a net sheet against a table sheet.
ghost use Rattle.std.specs.Prelude.{◌≡◌};
ghost use Rattle.rules.specs.Calls.Checking.{check_call};
ghost use Rattle.checking.specs.CheckAnswers.{checked_of};

use crate::verdict::compare_into;
use accepted::both::read_both;
use answers::named::{Named, SheetRefusal};
use answers::refusal::{Kind, Refusal};
use evaluation::table;
use radix::limits::MOST_CELLS;
use radix::powers::power;

// Compares a net sheet with a table sheet, and puts the table sheet's inks in the cells buffer. Returns the lowest index at which they differ, if any.
// The caller may pass any bytes.
pub fn check(
    net_sheet: &[u8],
    table_sheet: &[u8],
    cells: &mut [u8],
) -> Result<Option<usize>, SheetRefusal>
    ensures { checked_of result cells.new ≡ check_call net_sheet.now table_sheet.now cells.old }
{
    let mut inks = [0u8; MOST_CELLS];
    let read = read_both(net_sheet, table_sheet, &mut inks)?;
    let count = power(read.header.levels, read.header.inputs);
    if cells.len() < count {
        return Err(SheetRefusal {
            named: Named::Neither,
            refusal: Refusal {
                kind: Kind::CellsShort,
                place: count,
            },
        });
    }
    let mut table = [0u8; MOST_CELLS];
    table::table(read.net, &mut table);
    Ok(compare_into(&table[0..count], &inks[0..count], cells, read.header.levels))
}
