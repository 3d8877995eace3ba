// A table sheet as the input of a call with a cells and a marks buffer.
ghost use Rattle.std.specs.Prelude.{◌≤◌, length};
ghost use Rattle.rules.specs.Limits.{most_cells};
ghost use Rattle.settling.specs.Input.{InputRead};

use crate::room::room;
use answers::refusal::Refusal;
use nets::forms::Header;
use radix::powers;
use table_reader::full;

// An accepted table sheet: its header, and the number of its inks.
#[derive(Drop)]
pub struct TableInput {
    pub header: Header,
    pub count: usize,
}

// Reads a full table sheet into the front of `inks`, and checks the room for its cells and marks. Refusals of the sheet come first, then 13 and 14.
pub fn read_input(
    s: &[u8],
    inks: &mut [u8],
    cells: &[u8],
    marks: &[u8],
) -> Result<TableInput, Refusal>
    requires { most_cells ≤ length inks.old }
    ensures { InputRead s.now inks.new cells.now marks.now result }
{
    let header = full::read_full(s, inks)?;
    let count = powers::power(header.levels, header.inputs);
    room(header, &inks[0..count], cells, marks)?;
    Ok(TableInput { header, count })
}
