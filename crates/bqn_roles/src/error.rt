ghost use Rattle.std.specs.Prelude.{◌≡◌};
ghost use Rattle.bqn_roles.specs.declared.error.NestError.TheVariants as error;

use bqn_base::Refusal;
use std::alloc::{AllocError, AllocFailed};

/// Why the brackets of a source have no partners: it is refused, or memory runs out.
#[derive(Clone, Copy, Debug, PartialEq, Eq)]
pub enum NestError {
    Refused(Refusal),
    Memory,
}

impl From<AllocError> for NestError {
    ghost from_gives = { λ _ given. given ≡ error.Memory };

    fn from(_error: AllocError) -> NestError {
        NestError::Memory
    }
}

impl<T: Drop> From<AllocFailed<T>> for NestError {
    ghost from_gives = { λ _ given. given ≡ error.Memory };

    fn from(_error: AllocFailed<T>) -> NestError {
        NestError::Memory
    }
}
