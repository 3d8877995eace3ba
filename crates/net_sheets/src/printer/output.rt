// Writes a net's sheet to the output. The sheet is printed elsewhere first, so a too short output stays unchanged.
ghost use Rattle.std.specs.Prelude.{◌≡◌, List, ℕ, ◌≤◌, length};
ghost use Rattle.rules.specs.Limits.{most_settled};
ghost use Rattle.rules.specs.Sheets.Printed.{printed_net};
ghost use Rattle.rules.specs.Calls.Settling.{written_sheet};
ghost use Rattle.net_sheets.specs.Text.Names.{NamesInside};
ghost use Rattle.nets.specs.Forms.{net_in};
ghost use Rattle.net_sheets.specs.Printer.Gates.{GatesInside};
ghost use Rattle.answers.specs.AnswerMaps.{made_of};

use crate::printer::net;
use crate::text::put::copy;
use answers::refusal::{Kind, Refusal};
use nets::forms::{Header, Net};
use radix::limits;

// Writes the sheet and returns its length, or refuses because the output is too short.
pub fn write_sheet(s: &[u8], header: Header, gates: Net, out: &mut [u8]) -> Result<usize, Refusal>
    requires { NamesInside s.now header × GatesInside gates × (length (printed_net (net_in s.now header gates)) ≤ most_settled) }
    ensures { (cells marks : List ℕ) → made_of result cells marks out.new
        ≡ written_sheet (printed_net (net_in s.now header gates)) cells marks out.old }
{
    let mut printed = [0u8; limits::MOST_SETTLED];
    let length = net::print_net(s, header, gates, &mut printed);
    if out.len() < length {
        return Err(Refusal {
            kind: Kind::OutputShort,
            place: length,
        });
    }
    let text = &printed[0..length];
    copy(text, out, 0);
    Ok(length)
}
