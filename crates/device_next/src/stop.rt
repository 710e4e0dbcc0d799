//! Why an offer is not taken, or a box not made.
ghost use Rattle.std.specs.Prelude.{◌≡◌, Ok as Gives, IsErr};
ghost use Rattle.device_next.specs.declared.stop.Stop.TheVariants.{Memory as EndsMemory, Refused as Refuses};
ghost use Rattle.device_next.specs.Stops.{MatchStop};

use model::fault::Fault;
use std::alloc::AllocError;

/// The law refuses, or there was no memory to ask it.
#[derive(Clone, Copy)]
pub enum Stop {
    Memory(AllocError),
    Refused(Fault),
}

impl From<AllocError> for Stop {
    ghost from_gives = { λ e s. s ≡ EndsMemory e };

    fn from(error: AllocError) -> Stop {
        Stop::Memory(error)
    }
}

impl From<Fault> for Stop {
    ghost from_gives = { λ f s. s ≡ Refuses f };

    fn from(fault: Fault) -> Stop {
        Stop::Refused(fault)
    }
}

/// What came of an offer, or of a first root, if there was memory to judge it.
pub fn answer_to<T>(outcome: Result<T, Stop>) -> Result<Result<T, Fault>, AllocError>
    ensures { MatchStop outcome (λ a. result ≡ Gives a) (IsErr result) }
{
    match outcome {
        Ok(value) => Ok(Ok(value)),
        Err(Stop::Refused(fault)) => Ok(Err(fault)),
        Err(Stop::Memory(error)) => Err(error),
    }
}
