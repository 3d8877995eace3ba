// The keys and lengths of the texts that refer to inputs and gates: names and numbers.
ghost use Rattle.std.specs.Prelude.{◌≡◌, ◌+◌, ◌≤◌, ◌<◌};
ghost use Rattle.nets.specs.Forms.{names_in};
ghost use Rattle.nets.specs.Room.{most_wires};
ghost use Rattle.fields.specs.Header.FirstLines.{HeaderHeld};
ghost use Rattle.net_sheets.specs.Reader.Keys.{Keyed, NumberKeyed};

use fields::header::keys::key_of;
use nets::forms::{Header, MOST_WIRES};
use nets::names::name_of;

// Sets the keys and lengths of a header's names.
pub fn key_names(
    s: &[u8],
    header: Header,
    keys: &mut [u64; MOST_WIRES],
    lens: &mut [u8; MOST_WIRES],
)
    requires { HeaderHeld s.now header × Keyed (names_in s.now header) keys.old lens.old 0 }
    ensures { Keyed (names_in s.now header) keys.new lens.new header.inputs }
{
    for i in 0..header.inputs {
        keys[i] = key_of(name_of(s, header, i));
        lens[i] = header.lens[i];
    }
}

// Sets the key and length of the next gate's number: `gates` gates come before it.
pub fn key_number(
    inputs: usize,
    gates: usize,
    keys: &mut [u64; MOST_WIRES],
    lens: &mut [u8; MOST_WIRES],
)
    requires { (inputs + gates < most_wires) × (gates + 1 < 100) }
    ensures { NumberKeyed inputs gates keys.old lens.old keys.new lens.new }
{
    let at = inputs + gates;
    let number = gates + 1;
    let tens = (number / 10) as u64;
    let ones = (number % 10) as u64;
    if tens == 0 {
        keys[at] = 48 + ones;
        lens[at] = 1;
    } else {
        keys[at] = (48 + ones) * 256 + (48 + tens);
        lens[at] = 2;
    }
}
