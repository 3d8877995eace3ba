// Gate lines.
ghost use Rattle.std.specs.Prelude.{◌≤◌, ◌<◌};
ghost use Rattle.rules.specs.Limits.{most_levels};
ghost use Rattle.nets.specs.Room.{most_wires};
ghost use Rattle.fields.specs.Header.FirstLines.{HeaderHeld};
ghost use Rattle.net_sheets.specs.Reader.Gates.{DigitsLine, RightLine, WholeLine};
ghost use Rattle.net_sheets.specs.Reader.GateLines.{GatesAll};

use crate::reader::digits::{copy_digits, digits_field};
use crate::reader::keys::{key_names, key_number};
use crate::reader::references::reference_field;
use answers::refusal::Refusal;
use nets::forms::{Header, MOST_WIRES, Net, no_gates};

// A gate line: the gate's references, where its digits begin, and where the next line begins.
#[derive(Clone, Copy, PartialEq, Eq, Debug)]
pub struct Line {
    pub left: usize,
    pub right: usize,
    pub digits: usize,
    pub next: usize,
}

// The gates that were read, with their references marked in `used`, and where reading continues.
#[derive(Clone, Copy)]
pub struct GatesRead {
    pub net: Net,
    pub used: [bool; MOST_WIRES],
    pub next: usize,
}

// Reads a gate line from its table field on.
pub fn from_digits(
    s: &[u8],
    at: usize,
    levels: usize,
    left: usize,
    right: usize,
) -> Result<Line, Refusal>
    requires { levels ≤ most_levels }
    ensures { DigitsLine s.now at levels left right result }
{
    let table = digits_field(s, at, levels)?;
    Ok(Line {
        left,
        right,
        digits: at,
        next: table.next,
    })
}

// Reads a gate line from its right field on.
pub fn from_right(
    s: &[u8],
    at: usize,
    levels: usize,
    keys: &[u64; MOST_WIRES],
    lens: &[u8; MOST_WIRES],
    count: usize,
    left: usize,
    used: &mut [bool; MOST_WIRES],
) -> Result<Line, Refusal>
    requires { (levels ≤ most_levels) × (count ≤ most_wires) × (left < most_wires) }
    ensures { RightLine s.now at levels keys.now lens.now count left used.old used.new result }
{
    let right = reference_field(s, at, keys, lens, count, used)?;
    from_digits(s, right.next, levels, left, right.value)
}

// Reads one gate line after the first `count` inputs and gates, and marks its references as used.
pub fn gate_line(
    s: &[u8],
    at: usize,
    levels: usize,
    keys: &[u64; MOST_WIRES],
    lens: &[u8; MOST_WIRES],
    count: usize,
    used: &mut [bool; MOST_WIRES],
) -> Result<Line, Refusal>
    requires { (levels ≤ most_levels) × (count ≤ most_wires) }
    ensures { WholeLine s.now at levels keys.now lens.now count used.old used.new result }
{
    let left = reference_field(s, at, keys, lens, count, used)?;
    from_right(s, left.next, levels, keys, lens, count, left.value, used)
}

// Reads the gate lines of a sheet with this header: all of them, or up to the sheet's end after one.
pub fn gate_lines(s: &[u8], at: usize, header: Header) -> Result<GatesRead, Refusal>
    requires { HeaderHeld s.now header }
    ensures { GatesAll s.now at header result }
{
    let size = header.levels * header.levels;
    let mut keys = [0u64; MOST_WIRES];
    let mut lens = [0u8; MOST_WIRES];
    key_names(s, header, &mut keys, &mut lens);
    let mut net = no_gates(header.levels, header.inputs);
    let mut used = [false; MOST_WIRES];
    let mut next = at;
    for gates in 0..header.inputs - 1 {
        let line = gate_line(
            s,
            next,
            header.levels,
            &keys,
            &lens,
            header.inputs + gates,
            &mut used,
        )?;
        copy_digits(s, line.digits, size, &mut net.digits, gates * size);
        net.left[gates] = line.left as u8;
        net.right[gates] = line.right as u8;
        net.gates = gates + 1;
        next = line.next;
        if s.len() <= next {
            break;
        }
        key_number(header.inputs, gates, &mut keys, &mut lens);
    }
    Ok(GatesRead { net, used, next })
}
