// The split that keeps a group shallowest.
ghost use Rattle.std.specs.Prelude.{◌≡◌, ◌&&◌, ℕ, ◌-◌, ◌^◌, ◌≤◌, ◌<◌, eqb, length, get_or};
ghost use Rattle.rules.specs.Groups.Marks.{mark_in};
ghost use Rattle.rules.specs.Nets.Shallow.{split_layers, shallow_split};
ghost use Rattle.radix.specs.Widths.{groups_end};

use crate::fewest_layers;
use marks::split;
use radix::members;

// Returns whether a and the rest of g both have mark 2 and give g its fewest layers.
fn keeps(marks: &[u8], fewest: &[u8], g: usize, a: usize) -> bool
    requires { (0 < a) × (a < g) × (g ≤ length marks.now) × (g < length fewest.now) }
    ensures { result ≡ (eqb (mark_in marks.now a) 2 && eqb (mark_in marks.now (g - a)) 2
        && eqb (split_layers fewest.now g a) (get_or fewest.now g 0)) }
{
    split::both_two(marks, g, a) && fewest_layers::split_layers(fewest, g, a) == fewest[g] as usize
}

// Returns the part A of lowest number that holds g's first-listed input and gives g its fewest layers, where A and the rest have mark 2; g itself if
// there is none.
pub fn shallow_split(marks: &[u8], fewest: &[u8], g: usize) -> usize
    requires { (0 < g) × (g < groups_end) × (g ≤ length marks.now) × (g < length fewest.now) }
    ensures { (n : ℕ) → g < 2 ^ n → result ≡ shallow_split n marks.now fewest.now g }
{
    let rest = members::without_first(g);
    let first = g - rest;
    let mut part: usize = 0;
    while part < rest {
        if keeps(marks, fewest, g, first + part) {
            return first + part;
        }
        part = members::next_part(rest, part);
    }
    g
}
