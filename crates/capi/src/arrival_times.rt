// Arrival times for C.
ghost use Rattle.std.specs.Prelude.{◌≡◌};
ghost use Rattle.rules.specs.Nets.Arrivals.{arrivals_call};
ghost use Rattle.capi.specs.Numbers.Timing.{flat_timing};

use crate::numbers::timing::SitgurpArrivalTimes;

// Returns when the output of a net settles, from an arrival sheet for its inputs and the gates' common delay in quarters of a microsecond.
#[unsafe(no_mangle)]
pub extern "C" fn sitgurp_arrivals(net: &[u8], arrivals: &[u8], delay: u8) -> SitgurpArrivalTimes
    ensures { result ≡ flat_timing (arrivals_call net.now arrivals.now delay) }
{
    SitgurpArrivalTimes::from(arrivals::call::arrivals(net, arrivals, delay))
}
