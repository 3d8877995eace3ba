// The keep call: fills a net sheet's wiring again for a table sheet.
ghost use Rattle.std.specs.Prelude.{◌≡◌};
ghost use Rattle.rules.specs.Calls.Keeping.{keep_call};
ghost use Rattle.keeping.specs.KeepAnswers.{kept_one_of};

use crate::answer::Kept;
use crate::filled::keep_full;
use accepted::both::read_both;
use answers::named::{Named, SheetRefusal};
use cells::full::judge_full;
use radix::limits::MOST_CELLS;
use radix::powers::power;

// Keeps a net sheet's wiring, and fills its gates again for a table sheet, whose inks go to the cells buffer. The caller may pass any bytes.
// Refusal 27, of a table with an open cell, names the table sheet.
pub fn keep(
    net_sheet: &[u8],
    table_sheet: &[u8],
    cells: &mut [u8],
    out: &mut [u8],
) -> Result<Kept, SheetRefusal>
    ensures { kept_one_of result cells.new out.new
        ≡ keep_call net_sheet.now table_sheet.now cells.old out.old }
{
    let mut inks = [0u8; MOST_CELLS];
    let read = read_both(net_sheet, table_sheet, &mut inks)?;
    let header = read.header;
    let count = power(header.levels, header.inputs);
    let table = &inks[0..count];
    match judge_full(header.levels, table) {
        Err(refusal) => Err(SheetRefusal {
            named: Named::Table,
            refusal,
        }),
        Ok(()) => keep_full(net_sheet, header, read.net, table, cells, out),
    }
}
