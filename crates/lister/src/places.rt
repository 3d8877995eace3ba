// Where the lines of a sheet begin and end.
ghost use Rattle.std.specs.Prelude.{◌≡◌, ◌+◌, min, length, drop};
ghost use Rattle.rules.specs.Calls.Lister.{line_length};
ghost use Rattle.lister.specs.Places.{line_start, Onward};

use fields::runs::NEWLINE;

// Returns the place of the next line feed from `at` on, or the sheet's length.
pub fn line_end(s: &[u8], at: usize) -> usize
    ensures { result ≡ at + line_length (drop at s.now) }
{
    for end in at..s.len() {
        if s[end] == NEWLINE {
            return end;
        }
    }
    at.max(s.len())
}

// Returns the place after the line feed at `end`, or the sheet's end.
pub fn past_feed(s: &[u8], end: usize) -> usize
    ensures { result ≡ min (end + 1) (length s.now) }
{
    if end < s.len() { end + 1 } else { s.len() }
}

// Returns the place after the line at `at` and its line feed, or the sheet's end: where a lister at `at` is one turn later.
pub fn line_after(s: &[u8], at: usize) -> usize
    ensures { Onward s.now at result }
{
    past_feed(s, line_end(s, at))
}

// Returns the place after the first four lines, where the gate lines begin.
pub fn first_gate(s: &[u8]) -> usize
    ensures { result ≡ line_start s.now 4 }
{
    let second = line_after(s, 0);
    let third = line_after(s, second);
    let fourth = line_after(s, third);
    line_after(s, fourth)
}
