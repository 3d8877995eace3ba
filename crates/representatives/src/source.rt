// The member to remove from a group, so that the group can be classified from the rest.
ghost use Rattle.std.specs.Prelude.{◌≡◌, ℕ, ◌*◌, ◌^◌, ◌≤◌, ◌<◌, length, get_or};
ghost use Rattle.representatives.specs.Sources.{PassesOn, OneOf};

use radix::members;

// Returns whether h has too many classes, with witness columns that agree at the input whose group is `bit`.
pub fn passes_on(m: usize, counts: &[u8], kept: &[u16], h: usize, bit: usize) -> bool
    requires { (h < length counts.now) × (h * m < length kept.now) }
    ensures { PassesOn m counts.now kept.now h bit result }
{
    counts[h] == 0 && kept[h * m] as usize & bit != 0
}

// Returns a member of g, as a group: preferably one whose removal leaves too many classes that pass on to g, else one whose removal leaves few.
pub fn source(m: usize, counts: &[u8], kept: &[u16], g: usize) -> usize
    requires { (0 < m) × (0 < g) × (g ≤ length counts.now) × (g * m ≤ length kept.now) }
    ensures { (n : ℕ) → g < 2 ^ n → OneOf n g result }
{
    let mut best = g - members::without_first(g);
    let mut rest = g;
    while 0 < rest {
        let without = members::without_first(rest);
        let bit = rest - without;
        if passes_on(m, counts, kept, g - bit, bit) {
            return bit;
        }
        if counts[g - bit] != 0 {
            best = bit;
        }
        rest = without;
    }
    best
}
