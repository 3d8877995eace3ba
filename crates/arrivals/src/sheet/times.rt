// A time of an arrival sheet: the decimal value of a number from 0 to 65,535.
ghost use Rattle.std.specs.Prelude.{◌≡◌, ◌≤◌, length, drop};
ghost use Rattle.rules.specs.Sheets.Fields.{field};
ghost use Rattle.rules.specs.Sheets.ArrivalSheet.{time_field};
ghost use Rattle.fields.specs.Steps.{judged_as, step_as, itself, option_of};
ghost use Rattle.arrivals.specs.Sheet.Times.{most_bytes, leads, digits_value};

use answers::refusal::{Kind, Refusal};
use fields::ends::after_field;
use fields::runs::field_at;
use fields::steps::Field;
use radix::limits;

// Tests whether w has an allowed length for a time and no needless leading zero.
fn is_lead(w: &[u8]) -> bool
    ensures { result ≡ leads w.now }
{
    match w {
        [] => false,
        [_] => true,
        [first, ..] => w.len() <= limits::MOST_TIME_BYTES && *first != b'0',
    }
}

// Returns the number that the digits w write, or nothing if some byte is not a digit.
fn digits_value(w: &[u8]) -> Option<usize>
    requires { length w.now ≤ most_bytes }
    ensures { option_of result ≡ digits_value w.now }
{
    let mut value: usize = 0;
    for b in w {
        if !b.is_ascii_digit() {
            return None;
        }
        value = value * 10 + (*b - b'0') as usize;
    }
    Some(value)
}

// Judges a time that is at least `least`.
pub fn judge_time(w: &[u8], least: usize) -> Result<usize, Kind>
    ensures { judged_as itself result ≡ time_field least w.now }
{
    if !is_lead(w) {
        return Err(Kind::ArrivalTime);
    }
    match digits_value(w) {
        Some(value) if least <= value && value <= limits::MOST_TIME => Ok(value),
        _ => Err(Kind::ArrivalTime),
    }
}

// Reads a time field.
pub fn time_field(s: &[u8], at: usize, least: usize, due: u8) -> Result<Field, Refusal>
    ensures { step_as itself s.now result ≡ field (time_field least) due (drop at s.now) at }
{
    let w = field_at(s, at);
    let verdict = judge_time(w, least);
    after_field(s, at, w, verdict, due)
}
