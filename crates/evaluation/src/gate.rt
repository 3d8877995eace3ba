// One gate at many assignments.
ghost use Rattle.evaluation.specs.Gates.{GateReady, GateDone};

use crate::fast::two_levels::two_level_values;

// Does what `gate_values` does, for any number of levels.
fn looked_up_values(
    m: usize,
    digits: &[u8],
    from: usize,
    left: usize,
    right: usize,
    to: usize,
    count: usize,
    wires: &mut [u8],
)
    requires { GateReady m digits.now from left right to count wires.old }
    ensures { GateDone m digits.now from left right to count wires.old wires.new }
{
    for p in 0..count {
        let l = wires[left + p] as usize;
        let r = wires[right + p] as usize;
        wires[to + p] = digits[from + l * m + r];
    }
}

// Puts the digit for the levels at left + p and right + p at to + p, for each p below `count`. The gate's digits begin at `from`.
pub fn gate_values(
    m: usize,
    digits: &[u8],
    from: usize,
    left: usize,
    right: usize,
    to: usize,
    count: usize,
    wires: &mut [u8],
)
    requires { GateReady m digits.now from left right to count wires.old }
    ensures { GateDone m digits.now from left right to count wires.old wires.new }
{
    if m == 2 {
        return two_level_values(digits, from, left, right, to, count, wires);
    }
    looked_up_values(m, digits, from, left, right, to, count, wires);
}
