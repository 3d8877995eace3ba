// The sheet that a refusal names, as a number.
ghost use Rattle.std.specs.Prelude.{◌≡◌};
ghost use Rattle.answers.specs.AnswerMaps.{named_of};
ghost use Rattle.capi.specs.Numbers.Named.{flat_named};

use answers::named::Named;

pub fn flat_named(named: Named) -> usize
    ensures { result ≡ flat_named (named_of named) }
{
    match named {
        Named::Net => 1,
        Named::Table => 2,
        Named::Neither => 0,
    }
}
