// Which gates of a net have a different table than before.
ghost use Rattle.std.specs.Prelude.{◌≡◌, ◌<◌};
ghost use Rattle.rules.specs.Lists.{same};
ghost use Rattle.rules.specs.Calls.Keeping.{changed_gates};
ghost use Rattle.nets.specs.Forms.{gate_of, gates_of};
ghost use Rattle.nets.specs.Sound.{Sound};

use fields::same::same_bytes;
use nets::forms::Net;
use radix::powers::power;

// Returns whether the gate with k gates before it has the same table in both nets.
fn same_table(old: Net, new: Net, k: usize) -> bool
    requires { (Sound old) × (new.levels ≡ old.levels) × (k < old.gates) }
    ensures { result ≡ same (gate_of old k).digits (gate_of new k).digits }
{
    let size = old.levels * old.levels;
    let from = k * size;
    let end = from + size;
    same_bytes(&old.digits[from..end], &new.digits[from..end])
}

// Returns the set of changed gates, as the sum of 2 to the power of each gate's number, from 1.
pub fn changed_gates(old: Net, new: Net) -> usize
    requires { (Sound old) × (new.levels ≡ old.levels) × (new.gates ≡ old.gates) }
    ensures { result ≡ changed_gates (gates_of old) (gates_of new) }
{
    let mut set: usize = 0;
    for k in 0..old.gates {
        if !same_table(old, new, k) {
            set += power(2, k + 1);
        }
    }
    set
}
