// The wiring of a number among a group's trees.
ghost use Rattle.std.specs.Prelude.{◌≡◌, ◌+◌, ◌≤◌};
ghost use Rattle.rules.specs.Groups.Groups.{size};
ghost use Rattle.rules.specs.Groups.Marks.{mark_in};
ghost use Rattle.tree_counts.specs.Counts.{Countable};
ghost use Rattle.tree_counts.specs.Numbered.{InCount, SplitFound, NumberWired, WiringFound};

use crate::counts;
use radix::members;
use wirings::choose::Wired;
use wirings::forms;

// A split, by its part A, and a number among the trees of that split.
#[derive(Drop)]
pub struct Numbered {
    pub part: usize,
    pub number: u64,
}

// Returns the split of group g that number r falls in, and the number within it: subtracts counts of splits from r until r is below the next count.
fn numbered_split(marks: &[u8], counts: &mut [u64], g: usize, r: u64) -> Numbered
    requires { (Countable marks.now counts.old g) × (mark_in marks.now g ≡ 2) }
    ensures { SplitFound marks.now g r result counts.new }
{
    let rest = members::without_first(g);
    let first = g - rest;
    let mut left: u64 = r;
    let mut part: usize = 0;
    while part < rest {
        let count = counts::known_split(marks, counts, g, first + part);
        if left < count {
            return Numbered {
                part: first + part,
                number: left,
            };
        }
        left -= count;
        part = members::next_part(rest, part);
    }
    Numbered {
        part: 0,
        number: left,
    }
}

// Adds the links of number r of group g: first those of A's tree, then those of B's, then its own. B's number varies fastest.
fn wire_numbered(
    n: usize,
    marks: &[u8],
    counts: &mut [u64],
    g: usize,
    r: u64,
    wiring: forms::Wiring,
) -> Wired
    requires { (Countable marks.now counts.old g) × (InCount n marks.now g r) × (wiring.gates + size n g ≤ n) }
    ensures { NumberWired n marks.now g r wiring result.wiring result.reference counts.new }
{
    if members::single(g) {
        return Wired {
            wiring,
            reference: members::first_input(n, g) as u8,
        };
    }
    let split = numbered_split(marks, counts, g, r);
    let a = split.part;
    let number = split.number;
    let count = counts::group_count(marks, counts, g - a);
    let left = wire_numbered(n, marks, counts, a, number / count, wiring);
    let first = left.wiring;
    let right = wire_numbered(n, marks, counts, g - a, number % count, first);
    let both = right.wiring;
    let reference = (n + both.gates) as u8;
    let all = forms::link(left.reference, right.reference, both);
    Wired {
        wiring: all,
        reference,
    }
}

// Returns the wiring of number r of the group `leaves`.
pub fn wiring_of(n: usize, marks: &[u8], counts: &mut [u64], leaves: usize, r: u64) -> forms::Wiring
    requires { (Countable marks.now counts.old leaves) × (InCount n marks.now leaves r) }
    ensures { WiringFound n marks.now leaves r result }
{
    let none = forms::no_links();
    let built = wire_numbered(n, marks, counts, leaves, r, none);
    built.wiring
}
