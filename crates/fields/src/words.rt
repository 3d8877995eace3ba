// Fields that are fixed words.
ghost use Rattle.std.specs.Prelude.{◌≡◌, drop};
ghost use Rattle.rules.specs.Sheets.Fields.{field, field_in};
ghost use Rattle.fields.specs.Steps.{step_as, nothing, spelled, layout_of};
ghost use Rattle.fields.specs.Words.{two_words_in, three_words};

use crate::ends::{after_field_in, judged};
use crate::runs::{NEWLINE, SPACE, field_at};
use crate::same::same_bytes;
use crate::steps::{Field, Layout};
use answers::refusal::{Kind, Refusal};

// Reads a field that must be this word.
pub fn word_field_in(
    s: &[u8],
    at: usize,
    word: &[u8],
    due: u8,
    layout: Layout,
) -> Result<Field, Refusal>
    ensures { step_as nothing s.now result ≡ field_in (layout_of layout) (spelled word.now) due (drop at s.now) at }
{
    let w = field_at(s, at);
    let verdict = judged(same_bytes(w, word), 0, Kind::Layout);
    after_field_in(s, at, w, verdict, due, layout)
}

// Does the same in a strict sheet.
pub fn word_field(s: &[u8], at: usize, word: &[u8], due: u8) -> Result<Field, Refusal>
    ensures { step_as nothing s.now result ≡ field (spelled word.now) due (drop at s.now) at }
{
    word_field_in(s, at, word, due, Layout::Strict)
}

// Reads two words, to the end of their line.
pub fn two_words_in(
    s: &[u8],
    at: usize,
    first: &[u8],
    second: &[u8],
    layout: Layout,
) -> Result<Field, Refusal>
    ensures { step_as nothing s.now result ≡ two_words_in (layout_of layout) first.now second.now
        (drop at s.now) at }
{
    let next = word_field_in(s, at, first, SPACE, layout)?.next;
    word_field_in(s, next, second, NEWLINE, layout)
}

// Reads three words, to the end of their line, in a strict sheet.
pub fn three_words(
    s: &[u8],
    at: usize,
    first: &[u8],
    second: &[u8],
    third: &[u8],
) -> Result<Field, Refusal>
    ensures { step_as nothing s.now result
        ≡ three_words first.now second.now third.now (drop at s.now) at }
{
    let next = word_field(s, at, first, SPACE)?.next;
    two_words_in(s, next, second, third, Layout::Strict)
}
