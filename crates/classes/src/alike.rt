// Which of a group's assignments are alike. Assignments of the group and of the other inputs are offsets into the cells.
ghost use Rattle.std.specs.Prelude.{◌≡◌, ℕ, ◌≤◌, ◌<◌, length, take, get_or};
ghost use Rattle.rules.specs.Lists.{first_place};
ghost use Rattle.rules.specs.Groups.Groups.{alike_over};
ghost use Rattle.rules.specs.Calls.Answers.{ink_in};
ghost use Rattle.classes.specs.Within.{Within};

use crate::differences;

// Returns whether the ink is the same at p and at q for each assignment in ys of the other inputs.
pub fn alike(cells: &[u8], ys: &[u16], p: usize, q: usize) -> bool
    requires { (Within (length cells.now) ys.now p) × (Within (length cells.now) ys.now q) }
    ensures { result ≡ alike_over (ink_in cells.now) ys.now p q }
{
    differences::first_difference(cells, ys, p, q).is_none()
}

// Returns the number of p's class, or `count` if p is in none. The first `count` of `firsts` are the first assignments of the classes.
pub fn class_of(cells: &[u8], ys: &[u16], firsts: &[u16], count: usize, p: usize) -> usize
    requires { (count ≤ length firsts.now) × (Within (length cells.now) ys.now p)
        × ((j : ℕ) → j < count → Within (length cells.now) ys.now (get_or firsts.now j 0)) }
    ensures { result ≡ first_place (alike_over (ink_in cells.now) ys.now p) (take count firsts.now) }
{
    for (j, &first) in firsts[..count].iter().enumerate() {
        if alike(cells, ys, p, first as usize) {
            return j;
        }
    }
    count
}
