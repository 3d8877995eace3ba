// Compares two runs of inks.
ghost use Rattle.std.specs.Prelude.{◌≡◌, true, ℕ, ◌≤◌, ◌<◌, length, get_or};

// Returns whether ys begins with xs.
pub fn all_same(xs: &[u8], ys: &[u8]) -> bool
    requires { length xs.now ≤ length ys.now }
    ensures { result ≡ true → (p : ℕ) → p < length xs.now → get_or xs.now p 0 ≡ get_or ys.now p 0 }
{
    ys.starts_with(xs)
}
