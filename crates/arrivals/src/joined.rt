// A gate settles one delay after the later of its two wires: one comparison and one addition at each end.
ghost use Rattle.std.specs.Prelude.{◌≡◌};
ghost use Rattle.laws.specs.Numbers.Quarters.{later_of};
ghost use Rattle.arrivals.specs.Ends.{joined_ends};

use crate::arrival::Ends;

fn later(a: f64, b: f64) -> f64
    ensures { result ≡ later_of a b }
{
    if a < b { b } else { a }
}

// Returns when a gate settles: at each end the later of its two wires, plus the delay.
pub fn join(left: Ends, right: Ends, delay: f64) -> Ends
    ensures { result ≡ joined_ends left right delay }
{
    let earliest = later(left.earliest, right.earliest);
    let latest = later(left.latest, right.latest);
    Ends {
        earliest: earliest + delay,
        latest: latest + delay,
    }
}
