ghost use Rattle.std.specs.Prelude.{◌≡◌, IfOk};
ghost use Rattle.std.specs.Option.{option_map};
ghost use Rattle.bqn_compile.specs.Pools.{constant_of};
ghost use Rattle.bqn_compile.specs.Shown.{key_shown};

use crate::error::CompileError;
use bqn_syntax::Kind;
use std::alloc::Global;

/// A constant by which it is found in the pool.
#[derive(PartialEq, Eq, Hash, Drop)]
pub enum Key {
    Number(i64),
    Char(char),
    Text(Vec<char>),
}

impl Key {
    /// The constant that a literal spells.
    pub fn of(alloc: Global, kind: &Kind) -> Result<Option<Key>, CompileError>
        ensures { IfOk result (λ key. option_map key_shown key ≡ constant_of kind.now) }
    {
        match kind {
            Kind::Number(number) => Ok(Some(Key::Number(*number))),
            Kind::Char(c) => Ok(Some(Key::Char(*c))),
            Kind::Text(text) => Ok(Some(Key::Text(Vec::from_slice(alloc, text.chars())?))),
            _ => Ok(None),
        }
    }
}
