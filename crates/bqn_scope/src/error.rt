ghost use Rattle.std.specs.Prelude.{◌≡◌};
ghost use Rattle.bqn_scope.specs.declared.error.ScopeError.TheVariants as error;

use bqn_base::{Memory, Refusal};
use std::alloc::{AllocError, AllocFailed};

/// Why a tree is not resolved: it is refused, or memory runs out.
#[derive(Clone, Copy, Debug, PartialEq, Eq)]
pub enum ScopeError {
    Refused(Refusal),
    Memory,
}

impl From<AllocError> for ScopeError {
    ghost from_gives = { λ _ given. given ≡ error.Memory };

    fn from(_error: AllocError) -> ScopeError {
        ScopeError::Memory
    }
}

impl<T: Drop> From<AllocFailed<T>> for ScopeError {
    ghost from_gives = { λ _ given. given ≡ error.Memory };

    fn from(_error: AllocFailed<T>) -> ScopeError {
        ScopeError::Memory
    }
}

impl From<Memory> for ScopeError {
    ghost from_gives = { λ _ given. given ≡ error.Memory };

    fn from(_error: Memory) -> ScopeError {
        ScopeError::Memory
    }
}
