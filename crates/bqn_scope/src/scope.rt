ghost use Rattle.std.specs.Prelude.{◌≡◌, ◌++◌, IfOk};
ghost use Rattle.bqn_syntax.specs.scope.Scope.{definitions, has, is_again, place_of, same_place, scope};
ghost use Rattle.bqn_scope.specs.Scopes.{known_in, scope_shown};
ghost use Rattle.bqn_scope.specs.Shown.{events_shown, mentions_shown};
ghost use Rattle.bqn_scope.specs.Tokens.{names_of_tokens, tokens_shown};

use crate::defined::{Defined, definitions, name_of};
use crate::early::too_early;
use crate::mention::{Event, Mention};
use crate::places::Places;
use crate::spellings::Spellings;
use bqn_base::Memory;
use bqn_syntax::Token;
use std::alloc::Global;

/// What a body defines, the tokens that use it too early, and whether the body stands in a block.
#[derive(Drop)]
pub struct Scope<'a> {
    pub defined: Defined<'a>,
    pub early: Places<'a>,
    pub in_block: bool,
}

/// The definitions of a body after these names.
pub fn definitions_in<'a>(
    alloc: Global,
    outer: &Spellings,
    in_block: bool,
    mentions: &[Mention<'a>],
) -> Result<Defined<'a>, Memory>
    ensures { IfOk result (λ defined. tokens_shown defined.places.tokens.items ≡ definitions (known_in outer.now in_block) (mentions_shown mentions.now)) }
{
    if in_block {
        definitions(alloc, None, mentions)
    } else {
        definitions(alloc, Some(outer), mentions)
    }
}

/// The scope of a body after these names.
pub fn scope_of<'a>(
    alloc: Global,
    outer: &Spellings,
    in_block: bool,
    mentions: &[Mention<'a>],
    order: &[Event<'a>],
) -> Result<Scope<'a>, Memory>
    ensures { IfOk result (λ s. scope_shown outer.now s
        ≡ scope (known_in outer.now in_block) (definitions (known_in outer.now in_block) (mentions_shown mentions.now)) (events_shown order.now) in_block) }
{
    let defined = definitions_in(alloc, outer, in_block, mentions)?;
    let tokens = too_early(alloc, &defined, order)?;
    let early = Places::new(alloc, tokens)?;
    Ok(Scope {
        defined,
        early,
        in_block,
    })
}

/// The slot of a name in a body.
#[tactic(auto, using(crate::proofs::Slots::slot_laws))]
pub fn slot(
    defined: &Defined,
    in_block: bool,
    outer: &Spellings,
    name: &[char],
) -> Result<Option<usize>, Memory>
    ensures { IfOk result (λ found. found ≡ place_of (known_in outer.now in_block ++ names_of_tokens (tokens_shown defined.now.places.tokens.items)) name.now) }
{
    if in_block {
        return Ok(defined.names.position(name));
    }
    if let Some(place) = outer.position(name) {
        return Ok(Some(place));
    }
    match defined.names.position(name) {
        Some(place) => match outer.len().checked_add(place) {
            Some(found) => Ok(Some(found)),
            None => Err(Memory),
        },
        None => Ok(None),
    }
}

/// Whether two tokens stand in one place.
fn same_place(token: &Token, other: &Token) -> bool
    ensures { result ≡ same_place token.now other.now }
{
    token.place.line == other.place.line && token.place.column == other.place.column
}

/// Whether the body has defined a token's name by an earlier token.
#[tactic(auto, using(crate::proofs::Slots::again_laws))]
pub fn is_again(scope: &Scope, token: &Token) -> bool
    ensures { result ≡ is_again (tokens_shown scope.now.defined.places.tokens.items) token.now }
{
    match scope.defined.names.position(name_of(token)) {
        Some(place) => !same_place(token, scope.defined.places.tokens[place]),
        None => false,
    }
}
