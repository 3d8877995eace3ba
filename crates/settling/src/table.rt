// Making from a table that is already read: `inks` is the table, and `header` its first three lines in `s`.
ghost use Rattle.std.specs.Prelude.{◌≡◌};
ghost use Rattle.rules.specs.Calls.Settling.{settled_net, made_into};
ghost use Rattle.nets.specs.Forms.{table_in};
ghost use Rattle.answers.specs.AnswerMaps.{made_of};
ghost use Rattle.accepted.specs.Taken.{Given};

use crate::calls::length_alone;
use crate::into;
use answers::refusal::Refusal;
use nets::forms::Header;
use wirings::choice::Choice;

// Writes the table, its marks and its settled net sheet.
pub fn make_table(
    s: &[u8],
    header: Header,
    inks: &[u8],
    cells: &mut [u8],
    marks: &mut [u8],
    out: &mut [u8],
) -> Result<usize, Refusal>
    requires { Given s.now header inks.now }
    ensures { made_of result cells.new marks.new out.new
        ≡ made_into settled_net (table_in s.now header inks.now) cells.old marks.old out.old }
{
    length_alone(into::settle_into(Choice::Settled, s, header, inks, cells, marks, out))
}
