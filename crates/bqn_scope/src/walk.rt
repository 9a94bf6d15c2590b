ghost use Rattle.std.specs.Prelude.{◌≡◌, OnOk};
ghost use Rattle.bqn_syntax.specs.scope.Scope.{uses_at, uses_inside, uses_of};
ghost use Rattle.bqn_scope.specs.Around.{IsBound, bodies_around};
ghost use Rattle.bqn_scope.specs.Scopes.{Writes, uses_of_own, uses_shown};
ghost use Rattle.bqn_scope.specs.Shown.{mention_of, mentions_shown, own_of, scopes_shown};

use crate::around::Around;
use crate::error::ScopeError;
use crate::mention::{Mention, Own};
use crate::used::{Use, named, special, system};
use std::alloc::Global;

/// Writes the uses of mentions after others, from the innermost of these bodies.
#[cycle(walk)]
#[tactic(auto, using(crate::specs::Equations::of_mentions, crate::proofs::Uses::walk_laws))]
pub fn walk<'a>(
    alloc: Global,
    around: &mut Around<'a>,
    mentions: &[Mention<'a>],
    uses: &mut Vec<Use>,
) -> Result<(), ScopeError>
    requires { IsBound around.old }
    ensures bound { OnOk result (IsBound around.new) }
    ensures same { OnOk result (bodies_around around.new ≡ bodies_around around.old) }
    ensures uses { Writes (uses_of (bodies_around around.old) (mentions_shown mentions.now) (uses_shown uses.old.items)) uses.new.items result }
{
    'mentions: for m in mentions {
        match mention(alloc, around, m, uses) {
            Ok(()) => {}
            Err(error) => return Err(error),
        }
    }
    Ok(())
}

/// Writes the uses of one mention.
#[cycle(walk)]
#[tactic(auto, using(crate::specs::Equations::of_mentions, crate::proofs::Uses::walk_laws))]
fn mention<'a>(
    alloc: Global,
    around: &mut Around<'a>,
    m: &Mention<'a>,
    uses: &mut Vec<Use>,
) -> Result<(), ScopeError>
    requires { IsBound around.old }
    ensures bound { OnOk result (IsBound around.new) }
    ensures same { OnOk result (bodies_around around.new ≡ bodies_around around.old) }
    ensures uses { Writes (uses_at (bodies_around around.old) (mention_of m.now) (uses_shown uses.old.items)) uses.new.items result }
{
    match m {
        Mention::Named(how, token) => named(around, *how, token, uses),
        Mention::Special(token) => special(around, token),
        Mention::System(token) => system(token),
        Mention::Inner(bodies) => inside(alloc, around, bodies.list(), uses),
    }
}

/// Writes the uses of the bodies of a block.
#[cycle(walk)]
#[tactic(auto, using(crate::specs::Equations::of_mentions, crate::proofs::Uses::walk_laws))]
fn inside<'a>(
    alloc: Global,
    around: &mut Around<'a>,
    bodies: &[Own<'a>],
    uses: &mut Vec<Use>,
) -> Result<(), ScopeError>
    requires { IsBound around.old }
    ensures bound { OnOk result (IsBound around.new) }
    ensures same { OnOk result (bodies_around around.new ≡ bodies_around around.old) }
    ensures uses { Writes (uses_inside (bodies_around around.old) (scopes_shown bodies.now) (uses_shown uses.old.items)) uses.new.items result }
{
    'bodies: for own in bodies {
        match body(alloc, around, own, uses) {
            Ok(()) => {}
            Err(error) => return Err(error),
        }
    }
    Ok(())
}

/// Writes the uses of one body of a block.
#[cycle(walk)]
#[tactic(auto, using(crate::specs::Equations::of_mentions, crate::proofs::Uses::walk_laws))]
fn body<'a>(
    alloc: Global,
    around: &mut Around<'a>,
    own: &Own<'a>,
    uses: &mut Vec<Use>,
) -> Result<(), ScopeError>
    requires { IsBound around.old }
    ensures bound { OnOk result (IsBound around.new) }
    ensures same { OnOk result (bodies_around around.new ≡ bodies_around around.old) }
    ensures uses { Writes (uses_of_own (bodies_around around.old) (own_of own.now) (uses_shown uses.old.items)) uses.new.items result }
{
    let Ok(hidden) = around.enter(alloc, own) else {
        return Err(ScopeError::Memory);
    };
    match walk(alloc, around, own.mentions.list(), uses) {
        Ok(()) => {}
        Err(error) => return Err(error),
    }
    match around.leave(hidden.as_slice()) {
        Ok(()) => Ok(()),
        Err(_) => Err(ScopeError::Memory),
    }
}
