// An answer with a count of layers as three numbers.
ghost use Rattle.std.specs.Prelude.{◌≡◌};
ghost use Rattle.answers.specs.Layered.{layered_of};
ghost use Rattle.capi.specs.Numbers.Layered.{flat_layered};

use answers::layered::Layered;
use answers::refusal::Refusal;

// Number 0: accepted, `value` is the sheet's length and `layers` the layers of its net. Any other number: that refusal, `value` is its place and
// `layers` is 0.
#[repr(C)]
#[derive(Drop)]
pub struct SitgurpShallow {
    pub number: usize,
    pub value: usize,
    pub layers: usize,
}

impl From<Result<Layered, Refusal>> for SitgurpShallow {
    ghost from_gives = { λ answer flat. flat ≡ flat_layered (layered_of answer) };

    fn from(answer: Result<Layered, Refusal>) -> SitgurpShallow {
        match answer {
            Ok(made) => SitgurpShallow {
                number: 0,
                value: made.length,
                layers: made.layers,
            },
            Err(refusal) => SitgurpShallow {
                number: refusal.kind.number(),
                value: refusal.place,
                layers: 0,
            },
        }
    }
}
