// The result of a lister's turn, as a function of the sheet and the lister's place alone.
ghost use Rattle.lister.specs.Turns.{Says, is_none, part_in, turn_numbers};

use crate::places::line_end;

// A gate line, given as the part of the sheet that holds it without its line feed.
#[derive(Clone, Copy, PartialEq, Eq, Debug)]
pub struct Line {
    pub start: usize,
    pub count: usize,
}

// Tests whether no line is left.
pub fn none_left(s: &[u8], at: usize) -> bool
    ensures { Says s.now at is_none result }
{
    s.len() <= at
}

// Returns the line as a part of the sheet; no bytes if none is left.
pub fn line_at(s: &[u8], at: usize) -> &[u8]
    ensures { Says s.now at (part_in s.entry) (result.ref_ptr, result.now) }
{
    if at < s.len() {
        let end = line_end(s, at);
        return &s[at..end];
    }
    &s[0..0]
}

// Returns the turn in numbers, or `None` if no line is left.
pub fn turn_at(s: &[u8], at: usize) -> Option<Line>
    ensures { Says s.now at turn_numbers result }
{
    if s.len() <= at {
        return None;
    }
    let end = line_end(s, at);
    let count = end - at;
    Some(Line { start: at, count })
}
