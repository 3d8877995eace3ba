// What a program reads.
ghost use Rattle.std.specs.Prelude.{◌≡◌, take};
ghost use Rattle.rules.specs.Limits.{most_read};

use radix::limits;

// Returns the first `count` bytes of s, or all of a shorter s.
pub fn front(s: &[u8], count: usize) -> &[u8]
    ensures { result.now ≡ take count s.now }
{
    if count < s.len() {
        return &s[0..count];
    }
    s
}

// Returns the part of the input that a program reads.
pub fn first_read(s: &[u8]) -> &[u8]
    ensures { result.now ≡ take most_read s.now }
{
    front(s, limits::MOST_READ)
}
