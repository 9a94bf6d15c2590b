ghost use Rattle.std.specs.Prelude.{◌≡◌};
ghost use Rattle.bqn_token.specs.declared.error.TokenError.TheVariants as error;

use bqn_base::{Memory, Refusal};
use std::alloc::{AllocError, AllocFailed};

/// Why a source gives no tokens: it is refused, or memory is wanting.
#[derive(Clone, Copy, Debug, PartialEq, Eq)]
pub enum TokenError {
    Refused(Refusal),
    Memory,
}

impl From<AllocError> for TokenError {
    ghost from_gives = { λ _ given. given ≡ error.Memory };

    fn from(_error: AllocError) -> TokenError {
        TokenError::Memory
    }
}

impl<T: Drop> From<AllocFailed<T>> for TokenError {
    ghost from_gives = { λ _ given. given ≡ error.Memory };

    fn from(_error: AllocFailed<T>) -> TokenError {
        TokenError::Memory
    }
}

impl From<Memory> for TokenError {
    ghost from_gives = { λ _ given. given ≡ error.Memory };

    fn from(_error: Memory) -> TokenError {
        TokenError::Memory
    }
}
