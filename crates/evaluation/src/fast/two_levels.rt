// A gate of two levels at many assignments.
ghost use Rattle.std.specs.Prelude.{◌≡◌, [], ◌∷◌, ◌+◌, ◌*◌, ◌<◌, get_or};
ghost use Rattle.evaluation.specs.Gates.{GateReady, GateDone};

// Returns the digit for the levels l and r, of two levels. Chooses it without a look-up, so the compiler can vectorise the loop around it.
fn two_level_digit(l: u8, r: u8, a: u8, b: u8, c: u8, d: u8) -> u8
    requires { (l < 2) × (r < 2) }
    ensures { result ≡ get_or (a ∷ b ∷ c ∷ d ∷ []) (l * 2 + r) 0 }
{
    if l == 0 {
        if r == 0 { a } else { b }
    } else {
        if r == 0 { c } else { d }
    }
}

// Does what `looked_up_values` does, for two levels.
pub fn two_level_values(
    digits: &[u8],
    from: usize,
    left: usize,
    right: usize,
    to: usize,
    count: usize,
    wires: &mut [u8],
)
    requires { GateReady 2 digits.now from left right to count wires.old }
    ensures { GateDone 2 digits.now from left right to count wires.old wires.new }
{
    let a = digits[from];
    let b = digits[from + 1];
    let c = digits[from + 2];
    let d = digits[from + 3];
    for p in 0..count {
        let l = wires[left + p];
        let r = wires[right + p];
        wires[to + p] = two_level_digit(l, r, a, b, c, d);
    }
}
