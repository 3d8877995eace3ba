// A verdict as four numbers.
ghost use Rattle.std.specs.Prelude.{◌≡◌};
ghost use Rattle.checking.specs.CheckAnswers.{verdict_of};
ghost use Rattle.capi.specs.Numbers.Verdict.{flat_verdict};

use crate::numbers::named::flat_named;
use answers::named::SheetRefusal;

// Kind 0: they agree. Kind 1: they differ, first at index `value`. Kind 2: refused with `number` at place `value`, which names the
// net sheet (1), the table sheet (2) or neither (0).
#[repr(C)]
#[derive(Drop)]
pub struct SitgurpVerdict {
    pub kind: usize,
    pub named: usize,
    pub number: usize,
    pub value: usize,
}

impl From<Result<Option<usize>, SheetRefusal>> for SitgurpVerdict {
    ghost from_gives = { λ verdict flat. flat ≡ flat_verdict (verdict_of verdict) };

    fn from(verdict: Result<Option<usize>, SheetRefusal>) -> SitgurpVerdict {
        match verdict {
            Ok(None) => SitgurpVerdict {
                kind: 0,
                named: 0,
                number: 0,
                value: 0,
            },
            Ok(Some(index)) => SitgurpVerdict {
                kind: 1,
                named: 0,
                number: 0,
                value: index,
            },
            Err(refused) => SitgurpVerdict {
                kind: 2,
                named: flat_named(refused.named),
                number: refused.refusal.kind.number(),
                value: refused.refusal.place,
            },
        }
    }
}
