ghost use Rattle.std.specs.Prelude.{◌≡◌};
ghost use Rattle.bqn_headers.specs.declared.error.HeadError.TheVariants as error;

use bqn_base::Memory;
use std::alloc::{AllocError, AllocFailed};

/// Why a piece has no header: it is none, or memory runs out.
#[derive(Clone, Copy, Debug, PartialEq, Eq)]
pub enum HeadError {
    Bad,
    Memory,
}

impl From<AllocError> for HeadError {
    ghost from_gives = { λ _ given. given ≡ error.Memory };

    fn from(_error: AllocError) -> HeadError {
        HeadError::Memory
    }
}

impl<T: Drop> From<AllocFailed<T>> for HeadError {
    ghost from_gives = { λ _ given. given ≡ error.Memory };

    fn from(_error: AllocFailed<T>) -> HeadError {
        HeadError::Memory
    }
}

impl From<Memory> for HeadError {
    ghost from_gives = { λ _ given. given ≡ error.Memory };

    fn from(_error: Memory) -> HeadError {
        HeadError::Memory
    }
}
