ghost use Rattle.std.specs.Prelude.{◌≡◌};
ghost use Rattle.dml_grammar.specs.inside.Answering as answering;

use crate::fault::Fault;

/// Why a list of tokens isn't a part.
#[derive(Clone, Copy, Debug)]
pub enum Refusal {
    /// It is refused at the token of this place.
    At(usize),
    /// There was no memory.
    NoMemory,
}

/// The answer for so many tokens, of which the ones up to this place were read.
pub fn settled<T: Drop>(read: Result<T, Fault>, at: usize, len: usize) -> Result<T, Refusal>
    ensures { result ≡ answering.settled read at len }
{
    match read {
        Ok(value) => {
            if at == len {
                Ok(value)
            } else {
                Err(Refusal::At(at))
            }
        }
        Err(fault) => match fault {
            Fault::Syntax => Err(Refusal::At(at)),
            Fault::NoMemory => Err(Refusal::NoMemory),
        },
    }
}
