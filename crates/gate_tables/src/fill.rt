// A wiring filled by the class rule, in its own line order and with its own sides.
ghost use Rattle.std.specs.Prelude.{◌≡◌, ◌+◌, ◌*◌, ◌^◌, ◌≤◌, ◌<◌, length};
ghost use Rattle.std.proofs.Math.Seq.{paste};
ghost use Rattle.rules.specs.Limits.{most_cells};
ghost use Rattle.rules.specs.Nets.Filling.{input_groups};
ghost use Rattle.rules.specs.Calls.Answers.{ink_in};
ghost use Rattle.trees.specs.Filling.Fillings.{Fillable};
ghost use Rattle.nets.specs.Room.{most_gates, most_digits};
ghost use Rattle.wirings.specs.Links.{links_in};
ghost use Rattle.gate_tables.specs.Sized.{Sized};
ghost use Rattle.gate_tables.specs.Growth.{JoinedBy};
ghost use Rattle.gate_tables.specs.Filled.{Filled, FilledTo};

use crate::{gate_pass, samples};
use nets::forms;
use radix::{limits, powers};
use wirings::forms as links;

// The length of all rows, and the most digits of a gate.
const ALL_ROWS: usize = forms::MOST_WIRES * samples::ROW;

const MOST_TABLE: usize = limits::MOST_LEVELS * limits::MOST_LEVELS;

// The most cells of a small table: for these, clearing a large work array takes longer than filling.
const FEW_CELLS: usize = 256;

// Returns the net with one more gate: its references, and its digits at the front of `table`.
fn join(m: usize, left: u8, right: u8, table: &[u8], mut net: forms::Net) -> forms::Net
    requires { (m * m ≤ length table.now) × (net.gates < most_gates) × ((net.gates + 1) * (m * m) ≤ most_digits) }
    ensures { JoinedBy m left right table.now net result }
{
    let k = net.gates;
    let at = k * (m * m);
    net.gates += 1;
    net.left[k] = left;
    net.right[k] = right;
    net.digits[at..at + m * m].copy_from_slice(&table[..m * m]);
    net
}

// Does what `fill_while_few` does. `ys` is a work array with a place for each cell.
fn fill_gates(m: usize, n: usize, cells: &[u8], wiring: links::Wiring, ys: &mut [u16]) -> forms::Net
    requires { (Sized m n cells.now) × (wiring.gates < n) × (m ^ n ≤ length ys.old)
        × (Fillable m n (λ _. 0) (input_groups n) (links_in wiring)) }
    ensures { FilledTo m n (ink_in cells.now) wiring result }
{
    let mut wires = [0u16; ALL_ROWS];
    samples::input_wires(m, n, &mut wires);
    let mut net = forms::no_gates(m, n);
    for k in 0..wiring.gates {
        let left = wiring.left[k];
        let right = wiring.right[k];
        let mut firsts = [0u16; limits::MOST_LEVELS + 1];
        let mut table = [0u8; MOST_TABLE];
        let classes = gate_pass::gate_classes(
            m,
            n,
            cells,
            &wires,
            left,
            right,
            k + 1 == wiring.gates,
            ys,
            &mut firsts,
            &mut table,
        );
        if m < classes {
            return net;
        }
        net = join(m, left, right, &table, net);
        let group = samples::group_of(&wires, left) + samples::group_of(&wires, right);
        samples::put_row(n + k, group, &firsts, classes, &mut wires);
    }
    net
}

// Does what `fill_while_few` does, in a table of at most CELLS cells.
fn fill_up_to<const CELLS: usize>(
    m: usize,
    n: usize,
    cells: &[u8],
    wiring: links::Wiring,
) -> forms::Net
    requires { (Sized m n cells.now) × (wiring.gates < n) × (m ^ n ≤ CELLS) × (CELLS ≤ most_cells)
        × (Fillable m n (λ _. 0) (input_groups n) (links_in wiring)) }
    ensures { FilledTo m n (ink_in cells.now) wiring result }
{
    let mut ys = [0u16; CELLS];
    fill_gates(m, n, cells, wiring, &mut ys)
}

// Returns the net of a wiring, with the gates before the first whose group has more than m classes, or with all gates if none has. Each gate's group
// is the union of its references' groups, and the last gate gives the ink.
pub fn fill_while_few(m: usize, n: usize, cells: &[u8], wiring: links::Wiring) -> forms::Net
    requires { (Sized m n cells.now) × (wiring.gates < n) × (Fillable m n (λ _. 0) (input_groups n) (links_in wiring)) }
    ensures { FilledTo m n (ink_in cells.now) wiring result }
{
    if powers::power(m, n) <= FEW_CELLS {
        fill_up_to::<FEW_CELLS>(m, n, cells, wiring)
    } else {
        fill_up_to::<{ limits::MOST_CELLS }>(m, n, cells, wiring)
    }
}

// Returns the net of a wiring whose gates' groups have at most m classes.
pub fn fill(m: usize, n: usize, cells: &[u8], wiring: links::Wiring) -> forms::Net
    requires { (Sized m n cells.now) × (wiring.gates < n) × (Fillable m n (ink_in cells.now) (input_groups n) (links_in wiring)) }
    ensures { Filled m n (ink_in cells.now) wiring result }
{
    fill_while_few(m, n, cells, wiring)
}
