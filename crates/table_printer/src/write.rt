// The table writing call: turns a net sheet into its table sheet.
ghost use Rattle.std.specs.Prelude.{◌≡◌};
ghost use Rattle.rules.specs.Calls.TableWriting.{write_table_call};
ghost use Rattle.table_printer.specs.Writing.{table_written_of};
ghost use Rattle.accepted.specs.Taken.{NetTaken};

use crate::lengths::table_length;
use crate::table::print_table;
use answers::refusal::{Kind, Refusal};
use evaluation::table;
use net_sheets::reader::net::read_net;
use nets::forms::{Header, Net};
use radix::limits::MOST_CELLS;
use radix::powers::power;

// Writes the table sheet of an accepted net sheet and returns its length, or refuses with 15.
fn write_accepted(sheet: &[u8], header: Header, net: Net, out: &mut [u8]) -> Result<usize, Refusal>
    requires { NetTaken sheet.now header net }
    ensures { table_written_of result out.new ≡ write_table_call sheet.now out.old }
{
    let count = power(header.levels, header.inputs);
    let need = table_length(header, count);
    if out.len() < need {
        return Err(Refusal {
            kind: Kind::OutputShort,
            place: need,
        });
    }
    let mut cells = [0u8; MOST_CELLS];
    table::table(net, &mut cells);
    Ok(print_table(sheet, header, &cells[0..count], out))
}

// Writes the table sheet of a net sheet to the front of `out`, and returns its length. The net sheet may be any bytes.
pub fn write_table(sheet: &[u8], out: &mut [u8]) -> Result<usize, Refusal>
    ensures { table_written_of result out.new ≡ write_table_call sheet.now out.old }
{
    let read = read_net(sheet)?;
    write_accepted(sheet, read.header, read.net, out)
}
