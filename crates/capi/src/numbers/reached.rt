// A job's answer for a group, as two numbers.
ghost use Rattle.std.specs.Prelude.{◌≡◌};
ghost use Rattle.jobs.specs.Asking.{reached_as};
ghost use Rattle.capi.specs.Numbers.Reached.{flat_reached};

use answers::refusal::Refusal;

// Kind 0: `value` is the group's mark. Kind 1: the group is not reached, and `value` is 0. Otherwise `kind` is the refusal's number, which is 11, and
// `value` its place.
#[repr(C)]
#[derive(Drop)]
pub struct SitgurpMark {
    pub kind: usize,
    pub value: usize,
}

impl From<Result<Option<u8>, Refusal>> for SitgurpMark {
    ghost from_gives = { λ reached flat. flat ≡ flat_reached (reached_as reached) };

    fn from(reached: Result<Option<u8>, Refusal>) -> SitgurpMark {
        match reached {
            Ok(Some(mark)) => SitgurpMark {
                kind: 0,
                value: mark as usize,
            },
            Ok(None) => SitgurpMark { kind: 1, value: 0 },
            Err(refusal) => SitgurpMark {
                kind: refusal.kind.number(),
                value: refusal.place,
            },
        }
    }
}
