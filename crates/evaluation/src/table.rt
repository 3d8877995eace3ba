// The table of a net.
ghost use Rattle.std.specs.Prelude.{◌^◌, ◌≤◌, length};
ghost use Rattle.nets.specs.Sound.{Sound};
ghost use Rattle.nets.specs.Evaluating.{Tabled};

use crate::lists::cells::write_cells;
use crate::lists::gates::lay_gates;
use crate::lists::inputs::lay_inputs;
use crate::lists::limits::LIST_ROOM;
use nets::forms::Net;

// Writes the net's table to the front of `cells`, and returns the number of cells.
pub fn table(net: Net, cells: &mut [u8]) -> usize
    requires { Sound net × (net.levels ^ net.inputs ≤ length cells.old) }
    ensures { Tabled net cells.old cells.new result }
{
    let mut lists = [0u16; LIST_ROOM];
    let inputs = lay_inputs(net, &mut lists);
    let last = lay_gates(net, inputs, &mut lists);
    write_cells(net, last, &lists, cells)
}
