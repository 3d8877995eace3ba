// The table sheet of a full table. A sheet with an open cell is refused after it is read.
ghost use Rattle.std.specs.Prelude.{◌≤◌, length};
ghost use Rattle.rules.specs.Limits.{most_cells};
ghost use Rattle.table_reader.specs.Full.{FullReads};

use crate::sheet::read_table;
use answers::refusal::Refusal;
use cells::full::judge_full;
use nets::forms::Header;
use radix::powers::power;

// Reads a full table sheet from any bytes. Its inks go to the front of `cells`. All other refusals of a table sheet come before 27.
pub fn read_full(s: &[u8], cells: &mut [u8]) -> Result<Header, Refusal>
    requires { most_cells ≤ length cells.old }
    ensures { FullReads s.now cells.new result }
{
    let header = read_table(s, cells)?;
    let count = power(header.levels, header.inputs);
    let inks = &cells[..count];
    judge_full(header.levels, inks)?;
    Ok(header)
}
