// What a program prints for a refusal.
ghost use Rattle.std.specs.Prelude.{◌≡◌, ◌≤◌, ℕ, length};
ghost use Rattle.rules.specs.Calls.Programs.{refusal_lines};
ghost use Rattle.net_sheets.specs.Text.Put.{NetWrote};
ghost use Rattle.programs.specs.Refusals.{most_refusal};
ghost use Rattle.settling.specs.Answered.{kind_number};

use answers::refusal::Refusal;
use net_sheets::text::header::print_pair;

// A refusal that has a number and a place.
pub trait Numbered {
    ghost number: { Self → ℕ };

    ghost place: { Self → ℕ };

    // Returns the number and the place.
    fn number_and_place(self) -> (usize, usize)
        ensures number { result.0 ≡ number self }
        ensures place { result.1 ≡ place self };
}

impl Numbered for Refusal {
    ghost number = { kind_number };

    ghost place = { λ e. e.place };

    fn number_and_place(self) -> (usize, usize) {
        (self.kind.number(), self.place)
    }
}

// Any number and any place are a refusal too.
impl Numbered for (usize, usize) {
    ghost number = { λ e. e.0 };

    ghost place = { λ e. e.1 };

    fn number_and_place(self) -> (usize, usize) {
        self
    }
}

// Writes the line `number place` and the line of the two values to the front of `out`, and returns their length.
pub fn print_refusal(number: usize, place: usize, out: &mut [u8]) -> usize
    requires { most_refusal ≤ length out.old }
    ensures { NetWrote out.old (refusal_lines number place) out.new result }
{
    print_pair(b"number place\n", number, place, out, 0)
}
