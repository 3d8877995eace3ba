// The two sheets of a call: a net sheet, and a table sheet with the same header.
ghost use Rattle.std.specs.Prelude.{◌≤◌, length};
ghost use Rattle.rules.specs.Limits.{most_cells};
ghost use Rattle.accepted.specs.Taken.{NetTaken};
ghost use Rattle.accepted.specs.Both.{BothReads};

use answers::named::{Named, SheetRefusal};
use answers::refusal::{Kind, Refusal};
use fields::header::same::same_header;
use net_sheets::reader::net::{NetRead, read_net};
use nets::forms::{Header, Net};
use table_reader::sheet::read_table;

// Reads the table sheet t that goes with the accepted net sheet s.
fn read_beside(
    s: &[u8],
    header: Header,
    net: Net,
    t: &[u8],
    inks: &mut [u8],
) -> Result<NetRead, SheetRefusal>
    requires { NetTaken s.now header net × (most_cells ≤ length inks.old) }
    ensures { BothReads s.now t.now inks.new result }
{
    match read_table(t, inks) {
        Err(refusal) => Err(SheetRefusal {
            named: Named::Table,
            refusal,
        }),
        Ok(other) => {
            let same = same_header(s, header, t, other);
            if !same {
                return Err(SheetRefusal {
                    named: Named::Neither,
                    refusal: Refusal {
                        kind: Kind::HeadersDiffer,
                        place: 0,
                    },
                });
            }
            Ok(NetRead { header, net })
        }
    }
}

// Reads a net sheet and a table sheet, and compares their headers (12). Both may be any bytes. The table's inks go to the front of `inks`.
pub fn read_both(
    net_sheet: &[u8],
    table_sheet: &[u8],
    inks: &mut [u8],
) -> Result<NetRead, SheetRefusal>
    requires { most_cells ≤ length inks.old }
    ensures { BothReads net_sheet.now table_sheet.now inks.new result }
{
    match read_net(net_sheet) {
        Err(refusal) => Err(SheetRefusal {
            named: Named::Net,
            refusal,
        }),
        Ok(read) => read_beside(net_sheet, read.header, read.net, table_sheet, inks),
    }
}
