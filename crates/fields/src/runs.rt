// A field is a longest run of bytes other than space and line feed. Runs of spaces separate the fields of a loose sheet.
ghost use Rattle.std.specs.Prelude.{◌≡◌, drop};
ghost use Rattle.rules.specs.Sheets.Fields.{run};
ghost use Rattle.laws.specs.Lists.Runs.{field_end};
ghost use Rattle.fields.specs.Runs.{spaces_end};

pub const SPACE: u8 = b' ';

pub const NEWLINE: u8 = b'\n';

// The byte of the digit 0.
pub const ZERO: usize = b'0' as usize;

// Returns where the field that starts at `at` ends.
pub fn field_end(s: &[u8], at: usize) -> usize
    ensures { result ≡ field_end s.now at }
{
    for end in at..s.len() {
        let b = s[end];
        if b == SPACE || b == NEWLINE {
            return end;
        }
    }
    at.max(s.len())
}

// Returns where the spaces at `at` end.
pub fn spaces_end(s: &[u8], at: usize) -> usize
    ensures { result ≡ spaces_end s.now at }
{
    for end in at..s.len() {
        if s[end] != SPACE {
            return end;
        }
    }
    at.max(s.len())
}

// Returns the field that starts at `at`: an empty one if the sheet ends before it.
pub fn field_at(s: &[u8], at: usize) -> &[u8]
    ensures { result.now ≡ run (drop at s.now) }
{
    if s.len() < at {
        return &s[..0];
    }
    let end = field_end(s, at);
    &s[at..end]
}
