// The split of a group.
ghost use Rattle.std.specs.Prelude.{◌≡◌, ◌&&◌, ℕ, ◌-◌, ◌^◌, ◌≤◌, ◌<◌, eqb, length};
ghost use Rattle.rules.specs.Groups.Marks.{mark_in};
ghost use Rattle.rules.specs.Nets.Settled.{split_of};
ghost use Rattle.radix.specs.Widths.{groups_end};

use crate::own;
use radix::members;

// Returns whether a and the rest of g both have mark 2.
pub fn both_two(marks: &[u8], g: usize, a: usize) -> bool
    requires { (0 < a) × (a < g) × (g ≤ length marks.now) }
    ensures { result ≡ (eqb (mark_in marks.now a) 2 && eqb (mark_in marks.now (g - a)) 2) }
{
    own::mark_at(marks, a) == 2 && own::mark_at(marks, g - a) == 2
}

// Returns the part A of lowest number that holds g's first-listed input, where A and the rest have mark 2; g itself if there is none.
// Tries the parts of the other members by rising number.
pub fn split_of(marks: &[u8], g: usize) -> usize
    requires { (0 < g) × (g < groups_end) × (g ≤ length marks.now) }
    ensures { (n : ℕ) → g < 2 ^ n → result ≡ split_of n marks.now g }
{
    let rest = members::without_first(g);
    let first = g - rest;
    let mut part: usize = 0;
    while part < rest {
        if both_two(marks, g, first + part) {
            return first + part;
        }
        part = members::next_part(rest, part);
    }
    g
}
