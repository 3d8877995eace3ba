// The tree of an order number. The caller may pass any sheet and number, and buffers of any length.
ghost use Rattle.std.specs.Prelude.{◌≡◌, ◌≤◌, length};
ghost use Rattle.rules.specs.Groups.Marks.{marks_length};
ghost use Rattle.rules.specs.Calls.FamilyCalls.{after_count, family_tree_call};
ghost use Rattle.nets.specs.Forms.{table_in};
ghost use Rattle.answers.specs.AnswerMaps.{made_of};
ghost use Rattle.accepted.specs.Taken.{Given};

use crate::{marked, net};
use answers::refusal::{Kind, Refusal};
use marks::own;
use net_sheets::printer::output;
use nets::forms::Header;
use radix::{limits, powers};
use settling::input::read_input;

// Writes the cells and the marks, then the sheet of the tree; or refuses with 17 or 15.
fn tree_marked(
    s: &[u8],
    header: Header,
    inks: &[u8],
    order: u64,
    cells: &mut [u8],
    marks: &mut [u8],
    out: &mut [u8],
) -> Result<usize, Refusal>
    requires { Given s.now header inks.now × (length inks.now ≤ length cells.old) × (marks_length header.inputs ≤ length marks.old) }
    ensures { made_of result cells.new marks.new out.new
        ≡ after_count order (table_in s.now header inks.now) cells.old marks.old out.old }
{
    let levels = header.levels;
    let inputs = header.inputs;
    let mut own = [0u8; own::MOST_GROUPS];
    let mut counts = [0u64; own::MOST_GROUPS];
    let counted = marked::count_marked(levels, inputs, inks, cells, &mut own, marks, &mut counts);
    if counted.trees <= order {
        return Err(Refusal {
            kind: Kind::NoSuchTree,
            place: order as usize,
        });
    }
    let end = powers::power(2, inputs);
    let leaves = counted.leaves;
    let net = net::family_net(
        levels,
        inputs,
        inks,
        &own[0..end],
        &mut counts,
        leaves,
        order,
    );
    output::write_sheet(s, header, net, out)
}

// Reads a table sheet, and writes its table, its marks and the sheet of the tree with that number, counted from 0.
pub fn family_tree(
    s: &[u8],
    order: u64,
    cells: &mut [u8],
    marks: &mut [u8],
    out: &mut [u8],
) -> Result<usize, Refusal>
    ensures { made_of result cells.new marks.new out.new
        ≡ family_tree_call s.now order cells.old marks.old out.old }
{
    let mut inks = [0u8; limits::MOST_CELLS];
    let input = read_input(s, &mut inks, cells, marks)?;
    let inks = &inks[0..input.count];
    tree_marked(s, input.header, inks, order, cells, marks, out)
}
