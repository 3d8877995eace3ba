// A whole arrival sheet, for the inputs of a net sheet.
ghost use Rattle.std.specs.Prelude.{◌≡◌};
ghost use Rattle.nets.specs.Forms.{names_in};
ghost use Rattle.fields.specs.Header.FirstLines.{HeaderHeld};
ghost use Rattle.arrivals.specs.Sheet.ArrivalReading.{ArrivalsRest, ArrivalsReads, from_lines};

use crate::sheet::lines::{Span, arrival_lines};
use answers::refusal::{Kind, Refusal};
use fields::words::three_words;
use nets::forms::Header;
use radix::limits::MOST_INPUTS;

// Reads an arrival sheet from the first input's line on. Nothing may follow the last line.
fn from_lines(
    net: &[u8],
    header: Header,
    s: &[u8],
    at: usize,
) -> Result<[Span; MOST_INPUTS], Refusal>
    requires { HeaderHeld net.now header }
    ensures { ArrivalsRest (names_in net.now header) s.now at (from_lines (names_in net.now header)) result }
{
    let read = arrival_lines(net, header, s, at)?;
    if read.next < s.len() {
        return Err(Refusal {
            kind: Kind::Layout,
            place: read.next,
        });
    }
    Ok(read.times)
}

// Reads the arrival sheet s, which may be any bytes, for the inputs of the net sheet `net`.
pub fn read_arrivals(net: &[u8], header: Header, s: &[u8]) -> Result<[Span; MOST_INPUTS], Refusal>
    requires { HeaderHeld net.now header }
    ensures { ArrivalsReads (names_in net.now header) s.now result }
{
    let words = three_words(s, 0, b"name", b"from", b"to")?;
    from_lines(net, header, s, words.next)
}
