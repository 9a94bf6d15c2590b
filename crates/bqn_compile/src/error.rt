ghost use Rattle.std.specs.Prelude.{◌≡◌};
ghost use Rattle.bqn_compile.specs.declared.error.CompileError.TheVariants as error;

use bqn_base::{Memory, Refusal};
use std::alloc::{AllocError, AllocFailed};

/// Why a tree is not translated: it is refused, or memory is wanting.
#[derive(Clone, Copy, Debug, PartialEq, Eq)]
pub enum CompileError {
    Refused(Refusal),
    Memory,
}

impl From<AllocError> for CompileError {
    ghost from_gives = { λ _ given. given ≡ error.Memory };

    fn from(_error: AllocError) -> CompileError {
        CompileError::Memory
    }
}

impl<T: Drop> From<AllocFailed<T>> for CompileError {
    ghost from_gives = { λ _ given. given ≡ error.Memory };

    fn from(_error: AllocFailed<T>) -> CompileError {
        CompileError::Memory
    }
}

impl From<Memory> for CompileError {
    ghost from_gives = { λ _ given. given ≡ error.Memory };

    fn from(_error: Memory) -> CompileError {
        CompileError::Memory
    }
}
