// The count of the assignments: one byte for each input's level, the last input fastest.
ghost use Rattle.std.specs.Prelude.{◌≡◌, ◌++◌, ◌≤◌, length, take, drop};
ghost use Rattle.laws.specs.Numbers.Levels.{next_levels};

// Steps the first n levels to those of the next assignment. The highest levels become all zeros.
pub fn next_levels(m: usize, n: usize, levels: &mut [u8])
    requires { (m ≤ 256) × (n ≤ length levels.old) }
    ensures { levels.new ≡ next_levels m (take n levels.old) ++ drop n levels.old }
{
    for i in (0..n).rev() {
        let l = levels[i];
        if l as usize + 1 < m {
            levels[i] = l + 1;
            return;
        }
        levels[i] = 0;
    }
}
