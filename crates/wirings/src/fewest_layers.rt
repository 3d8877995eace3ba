// The fewest layers of the groups of mark 2, by rising number.
ghost use Rattle.std.specs.Prelude.{◌≡◌, ℕ, ◌+◌, ◌^◌, ◌≤◌, ◌<◌, length};
ghost use Rattle.rules.specs.Nets.Shallow.{split_layers, fewest_of};
ghost use Rattle.rules.specs.Groups.Marks.{mark_in};
ghost use Rattle.wirings.specs.FewestLayers.{WiringFewer, layers_of, PartAfter, WiringKnown};
ghost use Rattle.wirings.specs.Fast.Floors.{Under};
ghost use Rattle.radix.specs.Parts.{PartOf};
ghost use Rattle.radix.specs.Widths.{groups_end, most_members};

use crate::fast::floors;
use marks::{own, split};
use radix::members;

// Returns the layers of a gate that joins a and the rest of g if each has its fewest layers.
pub fn split_layers(fewest: &[u8], g: usize, a: usize) -> usize
    requires { (0 < a) × (a < g) × (g ≤ length fewest.now) }
    ensures { result ≡ split_layers fewest.now g a }
{
    1 + fewest[a].max(fewest[g - a]) as usize
}

// Returns the lower of `least` and the layers by part a, if a and the rest of g have mark 2. If `least` is 0, none is known yet.
fn fewer_by(marks: &[u8], fewest: &[u8], g: usize, a: usize, least: usize) -> usize
    requires { (0 < a) × (a < g) × (g ≤ length marks.now) × (g ≤ length fewest.now) }
    ensures { WiringFewer marks.now fewest.now g a least result }
{
    if split::both_two(marks, g, a) {
        let layers = split_layers(fewest, g, a);
        if least == 0 || layers < least {
            return layers;
        }
    }
    least
}

// Returns the fewest layers of group g, from those of the groups below it. Tries the parts that hold its first-listed input, and stops at one that
// has no more layers than the floor, because no other part has fewer.
fn fewest_of(marks: &[u8], fewest: &[u8], g: usize, floor: usize) -> usize
    requires { (0 < g) × (g < groups_end) × (g ≤ length marks.now) × (g ≤ length fewest.now) × Under marks.now fewest.now g floor }
    ensures { (n : ℕ) → g < 2 ^ n → result ≡ fewest_of n marks.now fewest.now g }
{
    let rest = members::without_first(g);
    let first = g - rest;
    let mut least: usize = 0;
    let mut part: usize = 0;
    while part < rest {
        least = fewer_by(marks, fewest, g, first + part, least);
        if least == floor {
            return least;
        }
        part = members::next_part(rest, part);
    }
    least
}

// Returns the same if g has mark 2, else 0, because no other group can be a part.
fn layers_of(marks: &[u8], fewest: &[u8], g: usize, floor: usize) -> usize
    requires { (g < groups_end) × (g < length marks.now) × (g ≤ length fewest.now)
        × (mark_in marks.now g ≡ 2 → Under marks.now fewest.now g floor) }
    ensures { (n : ℕ) → g < 2 ^ n → result ≡ layers_of n marks.now fewest.now g }
{
    if g == 0 || own::mark_at(marks, g) != 2 {
        return 0;
    }
    fewest_of(marks, fewest, g, floor)
}

// Returns the part of `leaves` after g, or a number past them if g is the last.
fn part_after(leaves: usize, g: usize) -> usize
    requires { (leaves < groups_end) × (g ≤ leaves) × (PartOf g leaves) }
    ensures { PartAfter leaves g result }
{
    if g == leaves {
        return g + 1;
    }
    members::next_part(leaves, g)
}

// Writes the fewest layers of each group of mark 2 inside `leaves` at its number: no other group is a part of their tree.
pub fn fewest_layers(n: usize, marks: &[u8], leaves: usize, fewest: &mut [u8])
    requires { (n ≤ most_members) × (2 ^ n ≤ length marks.now) × (2 ^ n ≤ length fewest.old) × (leaves < 2 ^ n) }
    ensures { WiringKnown n marks.now leaves (leaves + 1) fewest.new }
{
    // Whether all groups of mark 2 so far have enough layers for their members. Then the members of the next group give it a floor.
    let mut sized = true;
    let mut g: usize = 0;
    while g <= leaves {
        let floor = floors::floor_at(marks, g, sized);
        let layers = layers_of(marks, fewest, g, floor);
        fewest[g] = layers as u8;
        if layers < floor {
            sized = false;
        }
        g = part_after(leaves, g);
    }
}
