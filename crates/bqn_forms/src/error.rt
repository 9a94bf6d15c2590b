ghost use Rattle.std.specs.Prelude.{◌≡◌};
ghost use Rattle.bqn_forms.specs.declared.error.CompileError.TheVariants.{Memory};

use std::alloc::{AllocError, AllocFailed};

/// Why a source gives no code: it is not of the form that is built so far, or memory is wanting.
#[derive(Clone, Copy, Debug, PartialEq, Eq)]
pub enum CompileError {
    NotYet,
    Memory,
}

impl From<AllocError> for CompileError {
    ghost from_gives = { λ _ error. error ≡ Memory };

    fn from(_error: AllocError) -> CompileError {
        CompileError::Memory
    }
}

impl<T: Drop> From<AllocFailed<T>> for CompileError {
    ghost from_gives = { λ _ error. error ≡ Memory };

    fn from(_error: AllocFailed<T>) -> CompileError {
        CompileError::Memory
    }
}
