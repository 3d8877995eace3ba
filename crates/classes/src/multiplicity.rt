// The multiplicity call.
ghost use Rattle.std.specs.Prelude.{◌≡◌, ◌^◌, ◌≤◌, ◌<◌, length};
ghost use Rattle.rules.specs.Limits.{most_cells};
ghost use Rattle.rules.specs.Groups.Groups.{size, others, multiplicity};
ghost use Rattle.rules.specs.Calls.Answers.{ink_in};
ghost use Rattle.rules.specs.Calls.Multiplicity.{multiplicity_call};
ghost use Rattle.answers.specs.AnswerMaps.{answer_of};
ghost use Rattle.laws.specs.Calls.Multiplicity.{group_answer};

use crate::fast::folded;
use crate::{counting, keys};
use answers::refusal::{Kind, Refusal};
use cells::table::Table;
use radix::limits::MOST_CELLS;
use radix::{members, powers};

// The most assignments that small work arrays have room for. Clearing large ones takes longer than counting few assignments.
const FEW_CELLS: usize = 256;

// Returns the number of classes of a group. The arrays are for work.
fn counted(
    table: Table,
    group: usize,
    xs: &mut [u16],
    ys: &mut [u16],
    firsts: &mut [u16],
    links: &mut [u16],
) -> usize
    requires { (group < 2 ^ table.inputs) × (table.levels ^ size table.inputs group ≤ length xs.old)
        × (table.levels ^ size table.inputs (others table.inputs group) ≤ length ys.old) × (length xs.old ≤ length firsts.old)
        × (length xs.old ≤ length links.old) × (length xs.old ≤ most_cells) }
    ensures { let t = table.entry in result ≡ multiplicity t.levels t.inputs (ink_in t.cells.now) group }
{
    let mut heads = [0u16; keys::KEYS];
    let enough = xs.len();
    let counts = counting::group_offsets(table.levels, table.inputs, group, xs, ys);
    let own = counts.own;
    let other = counts.other;
    folded::fast_firsts(
        table.levels,
        table.cells,
        &xs[0..own],
        &ys[0..other],
        enough,
        firsts,
        links,
        &mut heads,
    )
}

// Does the same with its own arrays, each of room for CELLS assignments.
fn counted_in<const CELLS: usize>(table: Table, group: usize) -> usize
    requires { (group < 2 ^ table.inputs) × (table.levels ^ size table.inputs group ≤ CELLS)
        × (table.levels ^ size table.inputs (others table.inputs group) ≤ CELLS) × (CELLS ≤ most_cells) }
    ensures { let t = table.entry in result ≡ multiplicity t.levels t.inputs (ink_in t.cells.now) group }
{
    let mut xs = [0u16; CELLS];
    let mut ys = [0u16; CELLS];
    let mut firsts = [0u16; CELLS];
    let mut links = [0u16; CELLS];
    counted(table, group, &mut xs, &mut ys, &mut firsts, &mut links)
}

// Returns refusal 11, or the group's multiplicity.
fn group_answer(table: Table, group: usize) -> Result<usize, Refusal>
    ensures { let t = table.entry in answer_of result ≡ group_answer t.levels t.inputs t.cells.now group }
{
    if group == 0 || powers::power(2, table.inputs) <= group {
        return Err(Refusal {
            kind: Kind::Group,
            place: 0,
        });
    }
    let members = members::members_of(group);
    let own = powers::power(table.levels, members);
    let other = powers::power(table.levels, table.inputs - members);
    if FEW_CELLS < own || FEW_CELLS < other {
        return Ok(counted_in::<MOST_CELLS>(table, group));
    }
    Ok(counted_in::<FEW_CELLS>(table, group))
}

// Returns the number of classes of a group, or refusal 9, 10, 27 or 11. The caller may pass any arguments.
pub fn multiplicity(m: usize, n: usize, cells: &[u8], group: usize) -> Result<usize, Refusal>
    ensures { answer_of result ≡ multiplicity_call m n cells.now group }
{
    let table = Table::full(m, n, cells)?;
    group_answer(table, group)
}
