// Which of two net sheets is returned.
ghost use Rattle.std.specs.Prelude.{◌≡◌};
ghost use Rattle.rules.specs.Calls.Shallower.{layers_in, which_by, which_of};
ghost use Rattle.answers.specs.AnswerMaps.{answer_of};
ghost use Rattle.shallower.specs.Which.{which_as};

use answers::refusal::Refusal;
use net_sheets::reader::net;
use nets::layers;

// The first sheet, the second, or an empty part of the first.
#[derive(Clone, Copy, PartialEq, Eq, Debug)]
pub enum Which {
    First,
    Second,
    Neither,
}

// Returns the layers of a sheet's net, or the refusal if it cannot be read.
fn layers_in(s: &[u8]) -> Result<usize, Refusal>
    ensures { answer_of result ≡ layers_in s.now }
{
    let read = net::read_net(s)?;
    Ok(layers::layers(read.net))
}

// Returns the sheet with fewer layers, the first if they are equal. A sheet that cannot be read loses to one that can.
fn which_by(first: Result<usize, Refusal>, second: Result<usize, Refusal>) -> Which
    ensures { which_as result ≡ which_by (answer_of first) (answer_of second) }
{
    match (first, second) {
        (Ok(a), Ok(b)) => { if b < a { Which::Second } else { Which::First } }
        (Ok(_), Err(_)) => Which::First,
        (Err(_), Ok(_)) => Which::Second,
        (Err(_), Err(_)) => Which::Neither,
    }
}

// Returns which of two net sheets has fewer layers.
pub fn which_of(first: &[u8], second: &[u8]) -> Which
    ensures { which_as result ≡ which_of first.now second.now }
{
    which_by(layers_in(first), layers_in(second))
}
