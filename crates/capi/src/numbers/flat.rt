// An answer as two numbers.
ghost use Rattle.std.specs.Prelude.{◌≡◌};
ghost use Rattle.answers.specs.AnswerMaps.{answer_of, outcome_as};
ghost use Rattle.capi.specs.Numbers.Done.{flat_done};
ghost use Rattle.capi.specs.Numbers.Flat.{flat_of};

use answers::refusal::Refusal;

// Number 0: accepted, and `value` is the answer. Any other number: that refusal, and `value` is its place.
#[repr(C)]
#[derive(Drop)]
pub struct SitgurpAnswer {
    pub number: usize,
    pub value: usize,
}

impl From<Result<usize, Refusal>> for SitgurpAnswer {
    ghost from_gives = { λ answer flat. flat ≡ flat_of (answer_of answer) };

    fn from(answer: Result<usize, Refusal>) -> SitgurpAnswer {
        match answer {
            Ok(value) => SitgurpAnswer { number: 0, value },
            Err(refusal) => SitgurpAnswer {
                number: refusal.kind.number(),
                value: refusal.place,
            },
        }
    }
}

// An outcome with no value has value 0.
impl From<Result<(), Refusal>> for SitgurpAnswer {
    ghost from_gives = { λ outcome flat. flat ≡ flat_done (outcome_as tt outcome) };

    fn from(outcome: Result<(), Refusal>) -> SitgurpAnswer {
        match outcome {
            Ok(()) => SitgurpAnswer {
                number: 0,
                value: 0,
            },
            Err(refusal) => SitgurpAnswer {
                number: refusal.kind.number(),
                value: refusal.place,
            },
        }
    }
}
