// The ends of every wire of a net, from the inputs to the output.
ghost use Rattle.std.specs.Prelude.{◌≡◌, ◌≤◌};
ghost use Rattle.rules.specs.Limits.{most_inputs};
ghost use Rattle.nets.specs.Sound.{Sound};
ghost use Rattle.arrivals.specs.Sheet.Lines.{TimesHeld, arrivals_in};
ghost use Rattle.arrivals.specs.Wires.{WiresAt, from_of, to_of, first_times, settled};

use crate::arrival::{Ends, arrival_of, ends_of, microseconds};
use crate::joined::join;
use crate::sheet::lines::Span;
use nets::forms::{MOST_WIRES, Net};
use radix::limits::MOST_INPUTS;

// Returns the ends of the inputs, followed by room for those of the gates.
fn input_ends(times: [Span; MOST_INPUTS], inputs: usize) -> [Ends; MOST_WIRES]
    requires { (inputs ≤ most_inputs) × TimesHeld times inputs }
    ensures { WiresAt (first_times from_of times inputs) (first_times to_of times inputs) result }
{
    let none = Ends {
        earliest: 0.0,
        latest: 0.0,
    };
    let mut ends = [none; MOST_WIRES];
    for i in 0..inputs {
        let arrival = arrival_of(times[i]);
        ends[i] = ends_of(arrival);
    }
    ends
}

// Returns when the output settles; the delay is in quarters of a microsecond.
pub fn settling(net: Net, times: [Span; MOST_INPUTS], delay: u8) -> Ends
    requires { Sound net × TimesHeld times net.inputs }
    ensures { result ≡ settled net (arrivals_in times net.inputs) delay }
{
    let step = microseconds(delay as u16);
    let mut ends = input_ends(times, net.inputs);
    for k in 0..net.gates {
        let a = ends[net.left[k] as usize];
        let b = ends[net.right[k] as usize];
        ends[net.inputs + k] = join(a, b, step);
    }
    ends[net.inputs + net.gates - 1]
}
