// The call: a net sheet, an arrival sheet for its inputs, and the gates' common delay in quarters of a microsecond.
ghost use Rattle.std.specs.Prelude.{◌≡◌};
ghost use Rattle.rules.specs.Nets.Arrivals.{arrivals_call};
ghost use Rattle.accepted.specs.Taken.{NetTaken};
ghost use Rattle.arrivals.specs.ArrivalAnswers.{timing_as};

use crate::arrival::Ends;
use crate::settling::settling;
use crate::sheet::reader::read_arrivals;
use answers::refusal::Refusal;
use net_sheets::reader::net::read_net;
use nets::forms::{Header, Net};

// A refusal, of the net sheet or of the arrival sheet.
#[derive(Clone, Copy, PartialEq, Eq, Debug)]
pub enum ArrivalsRefusal {
    Net(Refusal),
    Arrivals(Refusal),
}

// Reads the arrival sheet t for the accepted net sheet s.
fn settle_by(
    s: &[u8],
    header: Header,
    net: Net,
    t: &[u8],
    delay: u8,
) -> Result<Ends, ArrivalsRefusal>
    requires { NetTaken s.now header net }
    ensures { timing_as result ≡ arrivals_call s.now t.now delay }
{
    match read_arrivals(s, header, t) {
        Err(refusal) => Err(ArrivalsRefusal::Arrivals(refusal)),
        Ok(times) => Ok(settling(net, times, delay)),
    }
}

// Returns the earliest and the latest time at which a net's output settles, in microseconds. Both sheets may be any bytes.
pub fn arrivals(s: &[u8], t: &[u8], delay: u8) -> Result<Ends, ArrivalsRefusal>
    ensures { timing_as result ≡ arrivals_call s.now t.now delay }
{
    match read_net(s) {
        Err(refusal) => Err(ArrivalsRefusal::Net(refusal)),
        Ok(read) => settle_by(s, read.header, read.net, t, delay),
    }
}
