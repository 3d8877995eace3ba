// The library's own array of marks, by group number: one byte per mark. The caller does not lend it.
ghost use Rattle.std.specs.Prelude.{◌≡◌, ◌<◌, length, set};
ghost use Rattle.rules.specs.Groups.Marks.{mark_in};

use radix::limits::MOST_INPUTS;

// The number of groups of the most inputs.
pub const MOST_GROUPS: usize = 1 << MOST_INPUTS;

pub fn mark_at(marks: &[u8], g: usize) -> u8
    requires { g < length marks.now }
    ensures { result ≡ mark_in marks.now g }
{
    marks[g]
}

pub fn put_mark(marks: &mut [u8], g: usize, v: u8)
    requires { g < length marks.old }
    ensures { marks.new ≡ set marks.old g v }
{
    marks[g] = v;
}
