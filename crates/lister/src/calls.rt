// The calls that take a plain slice: opening a sheet, and returning the line of any turn.
ghost use Rattle.std.specs.Prelude.{◌≡◌};
ghost use Rattle.rules.specs.Calls.Lister.{listing};
ghost use Rattle.lister.specs.Places.{stands_at};
ghost use Rattle.lister.specs.Calls.{opened_as, opening, listed_as};

use crate::places::{first_gate, line_after};
use crate::turns::{Line, turn_at};
use answers::refusal::Refusal;
use net_sheets::reader::net::read_net;

// Reads the sheet, and returns where a lister starts on it.
pub fn open(s: &[u8]) -> Result<usize, Refusal>
    ensures { opened_as result ≡ opening s.now }
{
    read_net(s)?;
    Ok(first_gate(s))
}

// Returns where a lister starts on any sheet: at the end, with no line left, if the sheet is not accepted.
pub fn first_place(s: &[u8]) -> usize
    ensures { result ≡ stands_at s.now 0 }
{
    open(s).unwrap_or(s.len())
}

// Returns the lister's place after `count` turns from its start. At the sheet's end it stays there.
fn turns_on(s: &[u8], first: usize, count: usize) -> usize
    requires { first ≡ stands_at s.now 0 }
    ensures { result ≡ stands_at s.now count }
{
    let mut at = first;
    for _ in 0..count {
        if s.len() <= at {
            break;
        }
        at = line_after(s, at);
    }
    at
}

// Returns turn k, from 0, without a lister.
pub fn line(s: &[u8], k: usize) -> Result<Option<Line>, Refusal>
    ensures { listed_as result ≡ listing s.now k }
{
    let first = open(s)?;
    Ok(turn_at(s, turns_on(s, first, k)))
}
