// Names as numbers: the key of a short byte string is its bytes as one number, so two names are compared at once.
ghost use Rattle.std.specs.Prelude.{◌≤◌, length};
ghost use Rattle.rules.specs.Limits.{most_name_bytes};
ghost use Rattle.fields.specs.Header.Keys.{IsKey, SameKey};

// Returns the key of w. Its first byte is the lowest.
pub fn key_of(w: &[u8]) -> u64
    requires { length w.now ≤ most_name_bytes }
    ensures { IsKey w.now result }
{
    let mut key: u64 = 0;
    for i in (0..w.len()).rev() {
        let byte = w[i] as u64;
        key = key * 256 + byte;
    }
    key
}

// Tests whether two byte strings are equal, by their keys and lengths.
pub fn same_key(key: u64, count: usize, other: u64, len: u8) -> bool
    ensures { SameKey key count other len result }
{
    if key != other {
        return false;
    }
    count == len as usize
}
