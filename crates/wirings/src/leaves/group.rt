// The leaves of a table, from the group of its idle inputs: those that do not matter.
ghost use Rattle.std.specs.Prelude.{◌≡◌, ℕ, ◌^◌, ◌≤◌, ◌<◌};
ghost use Rattle.rules.specs.Limits.{most_inputs};
ghost use Rattle.rules.specs.Nets.Leaves.{leaves_of};
ghost use Rattle.marks.specs.Marking.{IdleGroup};

use radix::{members, powers};

// Returns the group of the inputs that matter. If fewer than two do, adds the first-listed others, up to two: the first two inputs are the group 3.
pub fn leaves(n: usize, idle: usize) -> usize
    requires { (2 ≤ n) × (n ≤ most_inputs) × (idle < 2 ^ n) }
    ensures { (m : ℕ) (f : ℕ → ℕ) → IdleGroup m n f idle → result ≡ leaves_of m n f }
{
    let mattering = powers::power(2, n) - 1 - idle;
    if 2 <= members::members_of(mattering) {
        return mattering;
    }
    if mattering <= 1 {
        return 3;
    }
    mattering + 1
}
