// The arrival at an input, in microseconds. specs/Ends.antt defines each form.
ghost use Rattle.std.specs.Prelude.{◌≡◌};
ghost use Rattle.rules.specs.Sheets.ArrivalSheet.{arrival_of};
ghost use Rattle.rules.specs.Nets.Arrivals.{quarter};
ghost use Rattle.arrivals.specs.Ends.{timed, ends_in};

use crate::sheet::lines::Span;

// A fixed time, or an earliest and a latest.
#[derive(Clone, Copy)]
pub enum Arrival {
    Fixed(f64),
    Between { earliest: f64, latest: f64 },
}

// The earliest and the latest time at which a wire settles.
#[derive(Clone, Copy)]
pub struct Ends {
    pub earliest: f64,
    pub latest: f64,
}

// Converts quarters of a microsecond to microseconds.
pub fn microseconds(quarters: u16) -> f64
    ensures { result ≡ quarter quarters }
{
    quarters as f64 * 0.25
}

// Returns the arrival between the two times of an input; it is fixed if they are equal.
pub fn arrival_of(span: Span) -> Arrival
    ensures { result ≡ timed (arrival_of span.from span.to) }
{
    let earliest = microseconds(span.from);
    if span.to == span.from {
        return Arrival::Fixed(earliest);
    }
    let latest = microseconds(span.to);
    Arrival::Between { earliest, latest }
}

// Returns the earliest and the latest time of an arrival.
pub fn ends_of(arrival: Arrival) -> Ends
    ensures { result ≡ ends_in arrival }
{
    match arrival {
        Arrival::Fixed(time) => Ends {
            earliest: time,
            latest: time,
        },
        Arrival::Between { earliest, latest } => Ends { earliest, latest },
    }
}
