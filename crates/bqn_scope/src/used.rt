ghost use Rattle.std.specs.Prelude.{◌≡◌, [], ◌∷◌, ◌++◌, Ok};
ghost use Rattle.std.specs.List.{list_any};
ghost use Rattle.bqn_base.specs.declared.refusal.Refusal.TheVariants as refusal;
ghost use Rattle.bqn_syntax.specs.scope.Scope as text;
ghost use Rattle.bqn_scope.specs.Around.{IsBound, bodies_around, has_last};
ghost use Rattle.bqn_scope.specs.Scopes.{Passes, Writes, seen_of, uses_shown};
ghost use Rattle.bqn_scope.specs.Shown.{how_shown};
ghost use Rattle.bqn_scope.specs.Tokens.{tokens_shown};

use crate::around::Around;
use crate::defined::name_of;
use crate::error::ScopeError;
use crate::mention::How;
use crate::scope::{Scope, is_again};
use bqn_base::{Place, Refusal};
use bqn_syntax::Token;

/// One use of a name: so many bodies outward, and the slot there.
#[derive(Clone, Copy, Debug, PartialEq, Eq)]
pub struct Use {
    pub up: u16,
    pub slot: u32,
    pub place: Place,
}

/// Writes the use of a name that is found so many bodies outward, in this slot.
#[tactic(auto, using(crate::proofs::Uses::use_laws))]
fn write(uses: &mut Vec<Use>, found: (usize, usize), place: Place) -> Result<(), ScopeError>
    ensures { Writes (Ok (uses_shown uses.old.items ++ record { seen = seen_of found; place = place } ∷ [])) uses.new.items result }
{
    let Ok(up) = u16::try_from(found.0) else {
        return Err(ScopeError::Memory);
    };
    let Ok(slot) = u32::try_from(found.1) else {
        return Err(ScopeError::Memory);
    };
    match uses.push(Use { up, slot, place }) {
        Ok(()) => Ok(()),
        Err(_) => Err(ScopeError::Memory),
    }
}

/// Writes the use of a token's name.
#[tactic(auto, using(crate::proofs::Uses::use_laws))]
fn used(around: &Around, token: &Token, uses: &mut Vec<Use>) -> Result<(), ScopeError>
    requires { IsBound around.now }
    ensures { Writes (text.used token.now (text.sees (bodies_around around.now) (text.name_of token.now)) (uses_shown uses.old.items)) uses.new.items result }
{
    match around.sees(name_of(token)) {
        Some(found) => write(uses, found, token.place),
        None => Err(ScopeError::Refused(Refusal::Undeclared(token.place))),
    }
}

/// Writes the use of a name that is read or changed in the body of this scope.
fn read(
    scope: &Scope,
    around: &Around,
    token: &Token,
    uses: &mut Vec<Use>,
) -> Result<(), ScopeError>
    requires { IsBound around.now }
    ensures { Writes (text.read (list_any (text.same_place token.now) (tokens_shown scope.now.early.tokens.items)) token.now
        (text.sees (bodies_around around.now) (text.name_of token.now)) (uses_shown uses.old.items)) uses.new.items result }
{
    if scope.early.contains(token) {
        return Err(ScopeError::Refused(Refusal::Early(token.place)));
    }
    used(around, token, uses)
}

/// Writes the use of a name that is defined in the body of this scope.
fn define(
    scope: &Scope,
    around: &Around,
    token: &Token,
    uses: &mut Vec<Use>,
) -> Result<(), ScopeError>
    requires { IsBound around.now }
    ensures { Writes (text.define (text.is_again (tokens_shown scope.now.defined.places.tokens.items) token.now) token.now
        (text.sees (bodies_around around.now) (text.name_of token.now)) (uses_shown uses.old.items)) uses.new.items result }
{
    if is_again(scope, token) {
        return Err(ScopeError::Refused(Refusal::Redefined(token.place)));
    }
    used(around, token, uses)
}

/// Whether the last of these bodies has a name, which is exported without a value.
fn show(around: &Around, token: &Token) -> Result<(), ScopeError>
    requires { IsBound around.now }
    ensures { Passes (has_last (bodies_around around.now) (text.name_of token.now)) (refusal.Undeclared token.now.place) result }
{
    if around.has(name_of(token)) {
        Ok(())
    } else {
        Err(ScopeError::Refused(Refusal::Undeclared(token.place)))
    }
}

/// Whether a special name stands in a block.
#[tactic(auto, using(crate::proofs::Uses::use_laws))]
pub fn special(around: &Around, token: &Token) -> Result<(), ScopeError>
    ensures { Passes (text.stands_in_block (bodies_around around.now)) (refusal.Undeclared token.now.place) result }
{
    match around.scopes.split_last() {
        Some((scope, _)) if scope.in_block => Ok(()),
        _ => Err(ScopeError::Refused(Refusal::Undeclared(token.place))),
    }
}

/// Whether there is such a system value.
fn is_system(name: &[char]) -> bool
    ensures { result ≡ text.has text.system_names name.now }
{
    ['o', 'u', 't'].as_slice() == name
        || ['s', 'h', 'o', 'w'].as_slice() == name
        || ['r', 'e', 'p', 'r'].as_slice() == name
        || ['f', 'm', 't'].as_slice() == name
        || ['t', 'y', 'p', 'e'].as_slice() == name
        || ['a', 'r', 'g', 's'].as_slice() == name
}

/// Whether the system value of a token's name exists.
pub fn system(token: &Token) -> Result<(), ScopeError>
    ensures { Passes (text.has text.system_names (text.name_of token.now)) (refusal.UnknownSystem token.now.place) result }
{
    if is_system(name_of(token)) {
        Ok(())
    } else {
        Err(ScopeError::Refused(Refusal::UnknownSystem(token.place)))
    }
}

/// A name in the innermost of these bodies.
#[tactic(auto, using(crate::proofs::Uses::use_laws))]
pub fn named(
    around: &Around,
    how: How,
    token: &Token,
    uses: &mut Vec<Use>,
) -> Result<(), ScopeError>
    requires { IsBound around.now }
    ensures { Writes (text.named (bodies_around around.now) (how_shown how) token.now (uses_shown uses.old.items)) uses.new.items result }
{
    let Some((scope, _)) = around.scopes.split_last() else {
        return Err(ScopeError::Refused(Refusal::Undeclared(token.place)));
    };
    match how {
        How::Reads => read(scope, around, token, uses),
        How::Changes => read(scope, around, token, uses),
        How::Defines => define(scope, around, token, uses),
        How::Exports => define(scope, around, token, uses),
        How::Shows => show(around, token),
    }
}
