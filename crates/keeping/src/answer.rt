// The answer of the keep call.
ghost use Rattle.std.specs.Prelude.{◌≡◌, ℕ};
ghost use Rattle.settling.specs.Answered.{plain_by};
ghost use Rattle.keeping.specs.KeepAnswers.{keeping_by, with_changed};

use answers::named::Named;

// The sheet's length, and the set of the gates whose tables changed, as the sum of 2 to the power of each gate's number.
#[derive(Clone, Copy, PartialEq, Eq, Debug)]
pub struct Kept {
    pub length: usize,
    pub changed: usize,
}

// Returns the answer with the set of the gates that changed. A refusal here names neither sheet. It may be of any type, and stays the same by any
// reading of its number and place.
pub fn with_changed<R>(answer: Result<usize, R>, changed: usize) -> Result<Kept, (Named, R)>
    ensures { (number place : R → ℕ) → keeping_by number place result ≡ with_changed changed (plain_by number place answer) }
{
    match answer {
        Ok(length) => Ok(Kept { length, changed }),
        Err(refusal) => Err((Named::Neither, refusal)),
    }
}
