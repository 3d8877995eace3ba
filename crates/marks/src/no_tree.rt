// The place of refusal 16: among the groups that have mark 1, one of fewest members, and of these the one with the lowest number.
ghost use Rattle.std.specs.Prelude.{◌≡◌, ◌^◌, ◌≤◌, ◌<◌, length, MatchOption};
ghost use Rattle.std.proofs.Math.Option.{none, some};
ghost use Rattle.rules.specs.Groups.Marks.{no_tree_place};
ghost use Rattle.marks.specs.NoTreePlace.{one_of, lowest};
ghost use Rattle.radix.specs.Widths.{most_members};

use crate::own;
use radix::{members, powers};

// Returns whether g has mark 1 and k members.
fn is_one_of(n: usize, marks: &[u8], k: usize, g: usize) -> bool
    requires { g < length marks.now }
    ensures { result ≡ one_of n marks.now k g }
{
    own::mark_at(marks, g) == 1 && members::members(n, g) == k
}

// Returns the lowest group below `end` that has mark 1 and k members.
fn lowest_one(n: usize, end: usize, marks: &[u8], k: usize) -> Option<usize>
    requires { end ≤ length marks.now }
    ensures { MatchOption result (lowest n end marks.now k 0 ≡ none) (λ g. lowest n end marks.now k 0 ≡ some g) }
{
    for g in 0..end {
        if is_one_of(n, marks, k, g) {
            return Some(g);
        }
    }
    None
}

pub fn no_tree_place(n: usize, marks: &[u8]) -> usize
    requires { (n ≤ most_members) × (2 ^ n ≤ length marks.now) }
    ensures { result ≡ no_tree_place n marks.now }
{
    let end = powers::power(2, n);
    for k in 0..=n {
        if let Some(g) = lowest_one(n, end, marks, k) {
            return g;
        }
    }
    0
}
