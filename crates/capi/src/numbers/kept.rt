// The answer of the keep call, as four numbers.
ghost use Rattle.std.specs.Prelude.{◌≡◌};
ghost use Rattle.keeping.specs.KeepAnswers.{keeping_of};
ghost use Rattle.capi.specs.Numbers.Kept.{flat_kept};

use crate::numbers::named::flat_named;
use answers::named::SheetRefusal;
use keeping::answer::Kept;

// Number 0: the sheet has `value` bytes, and `changed` is the set of the gates that changed. Otherwise refused with `number` at place `value`, which
// names the net sheet (1), the table sheet (2) or neither (0), and `changed` is 0.
#[repr(C)]
#[derive(Drop)]
pub struct SitgurpKept {
    pub named: usize,
    pub number: usize,
    pub value: usize,
    pub changed: usize,
}

impl From<Result<Kept, SheetRefusal>> for SitgurpKept {
    ghost from_gives = { λ kept flat. flat ≡ flat_kept (keeping_of kept) };

    fn from(kept: Result<Kept, SheetRefusal>) -> SitgurpKept {
        match kept {
            Ok(kept) => SitgurpKept {
                named: 0,
                number: 0,
                value: kept.length,
                changed: kept.changed,
            },
            Err(refused) => SitgurpKept {
                named: flat_named(refused.named),
                number: refused.refusal.kind.number(),
                value: refused.refusal.place,
                changed: 0,
            },
        }
    }
}
