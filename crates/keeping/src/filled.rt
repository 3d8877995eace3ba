// Fills a net's wiring for a full table: refusal 13 or 23, or the sheet.
ghost use Rattle.std.specs.Prelude.{◌≡◌};
ghost use Rattle.nets.specs.Forms.{net_in, table_in};
ghost use Rattle.accepted.specs.Taken.{NetTaken, Given};
ghost use Rattle.settling.specs.Answered.{kind_number};
ghost use Rattle.keeping.specs.KeepAnswers.{keeping_by, keeping_of, kept_one_of, filled_into, full_into};
ghost use Rattle.keeping.specs.Rewriting.{KeepingReady};

use crate::answer::{Kept, with_changed};
use crate::changed::changed_gates;
use crate::left_out::leaves_out;
use crate::wiring::wiring_of;
use answers::named::{Named, SheetRefusal};
use answers::refusal::{Kind, Refusal};
use gate_tables::fill::fill_while_few;
use net_sheets::printer::output::write_sheet;
use net_sheets::text::put::copy;
use nets::forms::{Header, Net};

// Returns the answer with a refusal and the sheet that it names as one value.
fn by_sheet(answer: Result<Kept, (Named, Refusal)>) -> Result<Kept, SheetRefusal>
    ensures { keeping_of result ≡ keeping_by kind_number (λ e. e.place) answer }
{
    match answer {
        Ok(kept) => Ok(kept),
        Err((named, refusal)) => Err(SheetRefusal { named, refusal }),
    }
}

// Writes the inks to the cells buffer, then returns refusal 23 at 0 or at a gate, refusal 15, or the sheet.
fn keep_filled(
    s: &[u8],
    header: Header,
    net: Net,
    inks: &[u8],
    cells: &mut [u8],
    out: &mut [u8],
) -> Result<Kept, SheetRefusal>
    requires { KeepingReady s.now header net inks.now cells.old }
    ensures { kept_one_of result cells.new out.new
        ≡ filled_into (net_in s.now header net) (table_in s.now header inks.now) cells.old out.old }
{
    copy(inks, cells, 0);
    if leaves_out(net, inks) {
        return Err(SheetRefusal {
            named: Named::Neither,
            refusal: Refusal {
                kind: Kind::Wiring,
                place: 0,
            },
        });
    }
    let filled = fill_while_few(net.levels, net.inputs, inks, wiring_of(net));
    let roomy = filled.gates;
    if roomy < net.gates {
        return Err(SheetRefusal {
            named: Named::Neither,
            refusal: Refusal {
                kind: Kind::Wiring,
                place: roomy + 1,
            },
        });
    }
    let changed = changed_gates(net, filled);
    by_sheet(with_changed(write_sheet(s, header, filled, out), changed))
}

// Keeps a wiring for a full table, or refuses with 13.
pub fn keep_full(
    s: &[u8],
    header: Header,
    net: Net,
    inks: &[u8],
    cells: &mut [u8],
    out: &mut [u8],
) -> Result<Kept, SheetRefusal>
    requires { NetTaken s.now header net × Given s.now header inks.now }
    ensures { kept_one_of result cells.new out.new
        ≡ full_into (net_in s.now header net) (table_in s.now header inks.now) cells.old out.old }
{
    if cells.len() < inks.len() {
        return Err(SheetRefusal {
            named: Named::Neither,
            refusal: Refusal {
                kind: Kind::CellsShort,
                place: inks.len(),
            },
        });
    }
    keep_filled(s, header, net, inks, cells, out)
}
