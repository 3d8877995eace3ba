// Settling and making: the calls of document 01. The sheet may be any bytes, and the buffers may have any length.
ghost use Rattle.std.specs.Prelude.{◌≡◌, ℕ};
ghost use Rattle.rules.specs.Calls.Settling.{settle_call, make_call};
ghost use Rattle.laws.specs.Calls.ShallowSettling.{plain_answer};
ghost use Rattle.answers.specs.AnswerMaps.{made_of};
ghost use Rattle.settling.specs.Answered.{plain_by, layered_by};

use crate::chosen;
use answers::layered::Layered;
use answers::refusal::Refusal;
use wirings::choice::Choice;

// Drops the count of layers from an answer. A refusal may be of any type, and stays the same by any reading of its number and place.
pub fn length_alone<R>(answer: Result<Layered, R>) -> Result<usize, R>
    ensures { (number place : R → ℕ) → plain_by number place result ≡ plain_answer (layered_by number place answer) }
{
    Ok(answer?.length)
}

// Reads a net sheet, and writes its table, its marks and its settled net sheet.
pub fn settle(
    s: &[u8],
    cells: &mut [u8],
    marks: &mut [u8],
    out: &mut [u8],
) -> Result<usize, Refusal>
    ensures { made_of result cells.new marks.new out.new
        ≡ settle_call s.now cells.old marks.old out.old }
{
    length_alone(chosen::settle_by(Choice::Settled, s, cells, marks, out))
}

// Reads a table sheet, and writes its table, its marks and its settled net sheet.
pub fn make(s: &[u8], cells: &mut [u8], marks: &mut [u8], out: &mut [u8]) -> Result<usize, Refusal>
    ensures { made_of result cells.new marks.new out.new
        ≡ make_call s.now cells.old marks.old out.old }
{
    length_alone(chosen::make_by(Choice::Settled, s, cells, marks, out))
}
