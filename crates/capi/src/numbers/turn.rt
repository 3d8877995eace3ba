// A turn of the gate lister as a kind and two numbers.
ghost use Rattle.std.specs.Prelude.{◌≡◌};
ghost use Rattle.lister.specs.Calls.{listed_as};
ghost use Rattle.capi.specs.Numbers.Turn.{flat_turn};

use answers::refusal::Refusal;
use lister::turns::Line;

// Kind 0: no line is left. Kind 1: a gate line of `second` bytes that begins at `first`. Kind 2: the sheet is refused, with number `first` at
// place `second`.
#[repr(C)]
#[derive(Drop)]
pub struct SitgurpTurn {
    pub kind: usize,
    pub first: usize,
    pub second: usize,
}

impl From<Result<Option<Line>, Refusal>> for SitgurpTurn {
    ghost from_gives = { λ listed flat. flat ≡ flat_turn (listed_as listed) };

    fn from(listed: Result<Option<Line>, Refusal>) -> SitgurpTurn {
        match listed {
            Ok(None) => SitgurpTurn {
                kind: 0,
                first: 0,
                second: 0,
            },
            Ok(Some(line)) => SitgurpTurn {
                kind: 1,
                first: line.start,
                second: line.count,
            },
            Err(refusal) => SitgurpTurn {
                kind: 2,
                first: refusal.kind.number(),
                second: refusal.place,
            },
        }
    }
}
