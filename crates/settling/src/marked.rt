// From a table to its marks and the sheet of the net made from it, if the cells and the marks have room.
ghost use Rattle.std.specs.Prelude.{◌≡◌, List, ℕ, ◌≤◌, length};
ghost use Rattle.rules.specs.Limits.{most_settled};
ghost use Rattle.rules.specs.Groups.Marks.{marks_length};
ghost use Rattle.rules.specs.Nets.Layers.{layers};
ghost use Rattle.rules.specs.Sheets.Printed.{printed_net};
ghost use Rattle.rules.specs.Calls.Settling.{after_marks, written_sheet};
ghost use Rattle.rules.specs.Calls.ShallowSettling.{net_layers, with_layers};
ghost use Rattle.nets.specs.Forms.{gates_of, net_in, table_in};
ghost use Rattle.nets.specs.Sound.{Sound};
ghost use Rattle.net_sheets.specs.Text.Names.{NamesInside};
ghost use Rattle.net_sheets.specs.Printer.Gates.{GatesInside};
ghost use Rattle.answers.specs.Layered.{layered_made_of};
ghost use Rattle.accepted.specs.Taken.{Given};
ghost use Rattle.settling.specs.Outcomes.{net_by};

use answers::layered::Layered;
use answers::refusal::{Kind, Refusal};
use gate_tables::made;
use marks::{all_groups, no_tree, own};
use net_sheets::printer::output;
use net_sheets::text::put::copy;
use nets::forms::{Header, Net};
use nets::layers;
use wirings::choice::Choice;
use wirings::leaves::group;

// Writes the sheet of a net and returns its length with the count of layers, or refuses with 15.
fn write_layered(s: &[u8], header: Header, net: Net, out: &mut [u8]) -> Result<Layered, Refusal>
    requires { NamesInside s.now header × GatesInside net × (length (printed_net (net_in s.now header net)) ≤ most_settled) × Sound net }
    ensures { (cells marks : List ℕ) → layered_made_of result cells marks out.new ≡ with_layers (layers net.inputs (gates_of net))
        (written_sheet (printed_net (net_in s.now header net)) cells marks out.old) }
{
    let layers = layers::layers(net);
    let length = output::write_sheet(s, header, net, out)?;
    Ok(Layered { length, layers })
}

// Writes the cells and the marks, then the sheet of the net; or refuses with 16 or 15.
pub fn settle_marked(
    choice: Choice,
    s: &[u8],
    header: Header,
    inks: &[u8],
    cells: &mut [u8],
    marks: &mut [u8],
    out: &mut [u8],
) -> Result<Layered, Refusal>
    requires { Given s.now header inks.now × (length inks.now ≤ length cells.old) × (marks_length header.inputs ≤ length marks.old) }
    ensures { layered_made_of result cells.new marks.new out.new
        ≡ with_layers (net_layers (net_by choice (table_in s.now header inks.now)))
        (after_marks (net_by choice) (table_in s.now header inks.now) cells.old marks.old out.old) }
{
    let levels = header.levels;
    let inputs = header.inputs;
    copy(inks, cells, 0);
    let mut own = [0u8; own::MOST_GROUPS];
    let marked = all_groups::mark_and_store(levels, inputs, inks, &mut own, marks);
    if marked.mark != 2 {
        return Err(Refusal {
            kind: Kind::NoTree,
            place: no_tree::no_tree_place(inputs, &own),
        });
    }
    let leaves = group::leaves(inputs, marked.idle);
    let net = made::made_net(choice, levels, inputs, inks, &own, leaves);
    write_layered(s, header, net, out)
}
