// The cells of a net's table, from the two lists of its last gate.
ghost use Rattle.std.specs.Prelude.{◌^◌, ◌≤◌, length};
ghost use Rattle.nets.specs.Sound.{Sound};
ghost use Rattle.nets.specs.Evaluating.{Tabled};
ghost use Rattle.evaluation.specs.Lists.Laid.{NetListed};
ghost use Rattle.evaluation.specs.Lists.Painted.{RowCells, RowPainted, PairCells, AllPainted};

use crate::lists::order::{Order, Span};
use nets::forms::Net;
use radix::limits::MOST_CELLS;
use radix::offsets::other_offsets;
use radix::powers::power;

// Writes a gate's values to the cells from `place` on, for one entry of the outer list and all of the inner list. The digits for the outer entry begin
// at `row` and are `step` apart.
fn paint_row(
    inner: Span,
    digits: &[u8],
    row: usize,
    step: usize,
    place: usize,
    lists: &[u16],
    cells: &mut [u8],
)
    requires { RowCells inner digits.now row step place lists.now (length cells.old) }
    ensures { RowPainted inner digits.now row step place lists.now inner.count cells.old cells.new }
{
    for entry in &lists[inner.start..inner.start + inner.count] {
        let b = *entry as usize;
        cells[place + b / 16] = digits[row + b % 16 * step];
    }
}

// Writes a gate's value for each pair of entries to the cell `offset` after its assignment's. The gate's digits begin at `from`.
fn paint(order: Order, digits: &[u8], from: usize, offset: usize, lists: &[u16], cells: &mut [u8])
    requires { PairCells order digits.now from offset lists.now cells.old }
    ensures { AllPainted order digits.now from offset lists.now order.outer.count cells.old cells.new }
{
    let outer = order.outer;
    for entry in &lists[outer.start..outer.start + outer.count] {
        let a = *entry as usize;
        paint_row(
            order.inner,
            digits,
            from + a % 16 * order.wide,
            order.step,
            offset + a / 16,
            lists,
            cells,
        );
    }
}

// Writes the net's table, once for each assignment of the inputs that no gate uses. Returns the number of cells.
fn paint_copies(net: Net, last: Order, lists: &[u16], cells: &mut [u8]) -> usize
    requires { Sound net × NetListed net lists.now last × (net.levels ^ net.inputs ≤ length cells.old) }
    ensures { Tabled net cells.old cells.new result }
{
    let digits = net.digits;
    let from = (net.gates - 1) * (net.levels * net.levels);
    let group = last.outer.group + last.inner.group;
    let mut offsets = [0u16; MOST_CELLS];
    let count = other_offsets(net.levels, net.inputs, group, &mut offsets);
    for offset in &offsets[..count] {
        paint(last, &digits, from, *offset as usize, lists, cells);
    }
    power(net.levels, net.inputs)
}

// The same. If the gates use all inputs, there is one assignment of the others, and no array of offsets.
pub fn write_cells(net: Net, last: Order, lists: &[u16], cells: &mut [u8]) -> usize
    requires { Sound net × NetListed net lists.now last × (net.levels ^ net.inputs ≤ length cells.old) }
    ensures { Tabled net cells.old cells.new result }
{
    if last.outer.group + last.inner.group + 1 < power(2, net.inputs) {
        return paint_copies(net, last, lists, cells);
    }
    let digits = net.digits;
    paint(
        last,
        &digits,
        (net.gates - 1) * (net.levels * net.levels),
        0,
        lists,
        cells,
    );
    power(net.levels, net.inputs)
}
