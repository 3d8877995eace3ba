// What settling and making share: writing a table, its marks and the sheet of the net made from it, each to a buffer of the caller.
ghost use Rattle.std.specs.Prelude.{◌≡◌};
ghost use Rattle.rules.specs.Calls.ShallowSettling.{layered_into};
ghost use Rattle.nets.specs.Forms.{table_in};
ghost use Rattle.answers.specs.Layered.{layered_made_of};
ghost use Rattle.accepted.specs.Taken.{Given};
ghost use Rattle.settling.specs.Outcomes.{net_by};

use crate::marked::settle_marked;
use crate::room::room;
use answers::layered::Layered;
use answers::refusal::Refusal;
use nets::forms::Header;
use wirings::choice::Choice;

// Writes a table, its marks and the sheet of its net, or refuses with 13 or 14. `inks` is the table, and `header` its first three lines in sheet s.
pub fn settle_into(
    choice: Choice,
    s: &[u8],
    header: Header,
    inks: &[u8],
    cells: &mut [u8],
    marks: &mut [u8],
    out: &mut [u8],
) -> Result<Layered, Refusal>
    requires { Given s.now header inks.now }
    ensures { layered_made_of result cells.new marks.new out.new
        ≡ layered_into (net_by choice) (table_in s.now header inks.now) cells.old marks.old out.old }
{
    room(header, inks, cells, marks)?;
    settle_marked(choice, s, header, inks, cells, marks, out)
}
