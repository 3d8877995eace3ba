// A group as bits: its members, the first-listed one, what is left without it, and its parts in rising order.
ghost use Rattle.std.specs.Prelude.{◌≡◌, ℕ, ◌-◌, ◌^◌, ◌≤◌, ◌<◌, eqb};
ghost use Rattle.std.specs.Int.Bits.{bit_and};
ghost use Rattle.rules.specs.Groups.Groups.{member, size};
ghost use Rattle.rules.specs.Nets.Wirings.{first_input};
ghost use Rattle.radix.specs.Parts.{PartOf, Next};
ghost use Rattle.radix.specs.Widths.{groups_end};

// 2 to the power 16: above every group.
const PAST: usize = 65536;

// Is input i a member of group g?
pub fn member_of(g: usize, i: usize) -> bool
    requires { i < 64 }
    ensures { result ≡ member i g }
{
    (g >> i) % 2 == 1
}

// Returns how many members group g has, among the first n inputs.
pub fn members(n: usize, g: usize) -> usize
    ensures { result ≡ size n g }
{
    let mut rest: usize = g;
    let mut count: usize = 0;
    for _i in 0..n {
        count += rest % 2;
        rest /= 2;
    }
    count
}

// Returns how many members group g has.
pub fn members_of(g: usize) -> usize
    ensures { (n : ℕ) → g < 2 ^ n → result ≡ size n g }
{
    usize::count_ones(g) as usize
}

// Returns a group's first-listed input, or n if it is empty.
pub fn first_input(n: usize, g: usize) -> usize
    requires { n ≤ 64 }
    ensures { result ≡ first_input n g }
{
    for i in 0..n {
        if member_of(g, i) {
            return i;
        }
    }
    n
}

// Returns the first-listed input of a group that is not empty.
pub fn first_of(g: usize) -> usize
    requires { 0 < g }
    ensures { (n : ℕ) → g < 2 ^ n → result ≡ first_input n g }
{
    usize::trailing_zeros(g) as usize
}

// Returns a group without its first-listed input.
pub fn without_first(g: usize) -> usize
    requires { 0 < g }
    ensures { (n : ℕ) → g < 2 ^ n → result ≡ g - 2 ^ first_input n g }
{
    g & (g - 1)
}

// Returns group g without the members that it shares with `other`.
pub fn without(g: usize, other: usize) -> usize
    ensures { result ≡ g - bit_and g other }
{
    g - (g & other)
}

// Does a group have one member?
pub fn single(g: usize) -> bool
    requires { 0 < g }
    ensures { (n : ℕ) → g < 2 ^ n → result ≡ eqb (size n g) 1 }
{
    without_first(g) == 0
}

// Returns the next part of `all` after `part`, by number. A carry runs through the bits outside `all`.
pub fn next_part(all: usize, part: usize) -> usize
    requires { (all < groups_end) × (part < all) × (PartOf part all) }
    ensures { Next all part result }
{
    (part + PAST - all) & all
}
