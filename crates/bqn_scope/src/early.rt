ghost use Rattle.std.specs.Prelude.{◌≡◌, IfOk, OnOk, length};
ghost use Rattle.bqn_syntax.specs.scope.Scope.{has, too_early, without};
ghost use Rattle.bqn_scope.specs.Shown.{event_shown, events_shown};
ghost use Rattle.bqn_scope.specs.Tokens.{names_of_tokens, tokens_shown};
ghost use Rattle.bqn_scope.specs.Waiting.{early_with, kept, to_come};

use crate::defined::{Defined, defines, name_of};
use crate::mention::Event;
use bqn_base::Memory;
use bqn_syntax::Token;
use std::alloc::Global;

/// Marks the definition in a token's place, if there is one, as stored.
#[tactic(auto, using(crate::proofs::Waiting::waiting_laws))]
fn store(defined: &Defined, waiting: &mut Vec<bool>, token: &Token)
    requires { length waiting.old.items ≡ length (tokens_shown defined.now.places.tokens.items) }
    ensures room { length waiting.new.items ≡ length (tokens_shown defined.now.places.tokens.items) }
    ensures stored { kept waiting.new.items (tokens_shown defined.now.places.tokens.items)
        ≡ without token.now (kept waiting.old.items (tokens_shown defined.now.places.tokens.items)) }
{
    if let Some(place) = defined.places.position(token) {
        waiting[place] = false;
    }
}

/// Whether a name's definition is still to come.
#[tactic(auto, using(crate::proofs::Waiting::waiting_laws))]
fn is_waiting(defined: &Defined, waiting: &[bool], name: &[char]) -> bool
    requires { length waiting.now ≡ length (tokens_shown defined.now.places.tokens.items) }
    ensures { result ≡ has (names_of_tokens (kept waiting.now (tokens_shown defined.now.places.tokens.items))) name.now }
{
    match defined.names.position(name) {
        Some(place) => waiting[place],
        None => false,
    }
}

/// One more event.
fn meet<'a>(
    defined: &Defined<'a>,
    waiting: &mut Vec<bool>,
    early: &mut Vec<&'a Token>,
    event: &Event<'a>,
) -> Result<(), Memory>
    requires { length waiting.old.items ≡ length (tokens_shown defined.now.places.tokens.items) }
    ensures room { length waiting.new.items ≡ length (tokens_shown defined.now.places.tokens.items) }
    ensures waiting { OnOk result (kept waiting.new.items (tokens_shown defined.now.places.tokens.items)
        ≡ to_come (kept waiting.old.items (tokens_shown defined.now.places.tokens.items)) (event_shown event.now)) }
    ensures early { OnOk result (tokens_shown early.new.items
        ≡ early_with (kept waiting.old.items (tokens_shown defined.now.places.tokens.items)) (tokens_shown early.old.items) (event_shown event.now)) }
{
    if defines(event.how) {
        store(defined, waiting, event.token);
        return Ok(());
    }
    if is_waiting(defined, waiting.as_slice(), name_of(event.token)) {
        early.push(event.token)?;
    }
    Ok(())
}

/// The tokens that read or change a name whose definition is still to come, in the order of
/// evaluation.
#[tactic(auto, using(crate::proofs::Waiting::waiting_laws))]
pub fn too_early<'a>(
    alloc: Global,
    defined: &Defined<'a>,
    order: &[Event<'a>],
) -> Result<Vec<&'a Token>, Memory>
    ensures { IfOk result (λ early. tokens_shown early.items ≡ too_early (tokens_shown defined.now.places.tokens.items) (events_shown order.now)) }
{
    let mut waiting = vec![in alloc; true; defined.places.tokens.len()]?;
    let mut early = Vec::new(alloc);
    'order: for event in order {
        meet(defined, &mut waiting, &mut early, event)?;
    }
    Ok(early)
}
