// Arrival times as three numbers and two doubles.
ghost use Rattle.std.specs.Prelude.{◌≡◌};
ghost use Rattle.answers.specs.Kinds.{number_of};
ghost use Rattle.arrivals.specs.ArrivalAnswers.{timing_as};
ghost use Rattle.capi.specs.Numbers.Timing.{flat_timing, flat_refused};

use answers::refusal::Refusal;
use arrivals::arrival::Ends;
use arrivals::call::ArrivalsRefusal;

// Number 0: accepted, and the output settles between `earliest` and `latest`, in microseconds. Any other number: that refusal, at `place`, of the
// net sheet (named 1) or of the arrival sheet (2), and both times are 0.
#[repr(C)]
#[derive(Drop)]
pub struct SitgurpArrivalTimes {
    pub named: usize,
    pub number: usize,
    pub place: usize,
    pub earliest: f64,
    pub latest: f64,
}

fn flat_refused(named: usize, refusal: Refusal) -> SitgurpArrivalTimes
    ensures { result ≡ flat_refused named (number_of refusal.kind) refusal.place }
{
    SitgurpArrivalTimes {
        named,
        number: refusal.kind.number(),
        place: refusal.place,
        earliest: 0.0,
        latest: 0.0,
    }
}

impl From<Result<Ends, ArrivalsRefusal>> for SitgurpArrivalTimes {
    ghost from_gives = { λ timing flat. flat ≡ flat_timing (timing_as timing) };

    fn from(timing: Result<Ends, ArrivalsRefusal>) -> SitgurpArrivalTimes {
        match timing {
            Ok(ends) => SitgurpArrivalTimes {
                named: 0,
                number: 0,
                place: 0,
                earliest: ends.earliest,
                latest: ends.latest,
            },
            Err(ArrivalsRefusal::Net(refusal)) => flat_refused(1, refusal),
            Err(ArrivalsRefusal::Arrivals(refusal)) => flat_refused(2, refusal),
        }
    }
}
