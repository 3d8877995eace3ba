// A net at many assignments, by its table: the index of each assignment, and one look-up.
ghost use Rattle.std.specs.Prelude.{◌≤◌};
ghost use Rattle.evaluation.specs.Values.{ValuesReady, ValuesDone};
ghost use Rattle.evaluation.specs.Lists.Runs.{Run};
ghost use Rattle.evaluation.specs.Fast.ByTable.{StepReady, index_step, LookReady, index_cell, most_indices};

use crate::table::table;
use nets::forms::{MOST_WIRES, Net};
use radix::limits::MOST_CELLS;

// The most assignments. No picture of `glyphs` has more.
pub const MOST_INDICES: usize = 4352;

// Takes one more input into the first `count` indices. Its levels begin at `start`.
fn step_indices(m: u16, start: usize, count: usize, wires: &[u8], indices: &mut [u16])
    requires { StepReady m start count wires.now indices.old }
    ensures { Run 0 count (index_step m start wires.now indices.old) indices.old indices.new }
{
    for (p, level) in wires[start..start + count].iter().enumerate() {
        indices[p] = indices[p] * m + *level as u16;
    }
}

// Puts the cells at the first `count` indices from `to` on.
fn look_up(cells: &[u8], indices: &[u16], to: usize, count: usize, wires: &mut [u8])
    requires { LookReady cells.now indices.now to count wires.old }
    ensures { Run to count (index_cell cells.now indices.now) wires.old wires.new }
{
    for (p, index) in indices[..count].iter().enumerate() {
        wires[to + p] = cells[*index as usize];
    }
}

// Does what `gate_by_gate` does, by the net's table, for up to MOST_INDICES assignments.
pub fn table_values(
    net: Net,
    starts: [usize; MOST_WIRES],
    base: usize,
    count: usize,
    wires: &mut [u8],
) -> usize
    requires { ValuesReady net starts base count wires.old × (count ≤ most_indices) }
    ensures { ValuesDone net starts base count wires.old wires.new result }
{
    let mut cells = [0u8; MOST_CELLS];
    table(net, &mut cells);
    let m = net.levels as u16;
    let mut indices = [0u16; MOST_INDICES];
    for start in &starts[..net.inputs] {
        step_indices(m, *start, count, wires, &mut indices);
    }
    look_up(&cells, &indices, base, count, wires);
    base
}
