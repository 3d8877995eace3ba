// Settling and making with any way of making a net from a table. The sheet may be any bytes, and the buffers may have any length.
ghost use Rattle.std.specs.Prelude.{◌≡◌};
ghost use Rattle.answers.specs.Layered.{layered_made_of};
ghost use Rattle.accepted.specs.Taken.{NetTaken};
ghost use Rattle.settling.specs.Calls.{settles_by, makes_by};

use crate::input::read_input;
use crate::into;
use crate::marked::settle_marked;
use answers::layered::Layered;
use answers::refusal::Refusal;
use evaluation::table;
use net_sheets::reader::net;
use nets::forms::{Header, Net};
use radix::limits;
use wirings::choice::Choice;

// Settles an accepted net. Its table goes into a local array first, because a refusal must not change any buffer.
fn settle_net(
    choice: Choice,
    s: &[u8],
    header: Header,
    gates: Net,
    cells: &mut [u8],
    marks: &mut [u8],
    out: &mut [u8],
) -> Result<Layered, Refusal>
    requires { NetTaken s.now header gates }
    ensures { layered_made_of result cells.new marks.new out.new
        ≡ settles_by choice s.now cells.old marks.old out.old }
{
    let mut inks = [0u8; limits::MOST_CELLS];
    let count = table::table(gates, &mut inks);
    into::settle_into(choice, s, header, &inks[0..count], cells, marks, out)
}

// Reads a net sheet, and writes its table, its marks and the sheet of the net made from its table.
pub fn settle_by(
    choice: Choice,
    s: &[u8],
    cells: &mut [u8],
    marks: &mut [u8],
    out: &mut [u8],
) -> Result<Layered, Refusal>
    ensures { layered_made_of result cells.new marks.new out.new
        ≡ settles_by choice s.now cells.old marks.old out.old }
{
    let read = net::read_net(s)?;
    settle_net(choice, s, read.header, read.net, cells, marks, out)
}

// Reads a table sheet, and writes its table, its marks and the sheet of the net made from it.
pub fn make_by(
    choice: Choice,
    s: &[u8],
    cells: &mut [u8],
    marks: &mut [u8],
    out: &mut [u8],
) -> Result<Layered, Refusal>
    ensures { layered_made_of result cells.new marks.new out.new
        ≡ makes_by choice s.now cells.old marks.old out.old }
{
    let mut inks = [0u8; limits::MOST_CELLS];
    let input = read_input(s, &mut inks, cells, marks)?;
    settle_marked(
        choice,
        s,
        input.header,
        &inks[0..input.count],
        cells,
        marks,
        out,
    )
}
