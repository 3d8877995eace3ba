// A byte as a usize.
ghost use Rattle.std.specs.Prelude.{◌≡◌, ◌<◌};

// Returns the byte as a number.
pub fn wide(x: u8) -> usize
    ensures { (result ≡ x) × (result < 256) }
{
    x as usize
}
