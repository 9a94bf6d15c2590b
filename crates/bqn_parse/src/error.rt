ghost use Rattle.std.specs.Prelude.{◌≡◌};
ghost use Rattle.bqn_parse.specs.declared.error.ParseError.TheVariants as error;

use bqn_base::{Memory, Refusal};
use std::alloc::{AllocError, AllocFailed};

/// Why a token list has no tree: it is refused, or memory runs out.
#[derive(Clone, Copy, Debug, PartialEq, Eq)]
pub enum ParseError {
    Refused(Refusal),
    Memory,
}

impl From<AllocError> for ParseError {
    ghost from_gives = { λ _ given. given ≡ error.Memory };

    fn from(_error: AllocError) -> ParseError {
        ParseError::Memory
    }
}

impl<T: Drop> From<AllocFailed<T>> for ParseError {
    ghost from_gives = { λ _ given. given ≡ error.Memory };

    fn from(_error: AllocFailed<T>) -> ParseError {
        ParseError::Memory
    }
}

impl From<Memory> for ParseError {
    ghost from_gives = { λ _ given. given ≡ error.Memory };

    fn from(_error: Memory) -> ParseError {
        ParseError::Memory
    }
}
