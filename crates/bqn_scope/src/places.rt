ghost use Rattle.std.specs.Prelude.{◌≡◌, ◌<◌, IfOk, IfSome, length, position};
ghost use Rattle.std.specs.List.{IsDistinct, list_any};
ghost use Rattle.std.proofs.Props.{props};
ghost use Rattle.bqn_syntax.specs.scope.Scope.{same_place};
ghost use Rattle.bqn_scope.specs.Tokens.{tokens_shown, spot, spots_of, same_spot};

use bqn_base::Memory;
use bqn_syntax::Token;
use indexmap::IndexSet;
use std::alloc::Global;

/// Tokens at places of their own, which are found by their places.
#[derive(Drop)]
pub struct Places<'a> {
    pub tokens: Vec<&'a Token>,
    spots: IndexSet<(u32, u32)>,
    ghost placed: { spots.keys ≡ spots_of (tokens_shown tokens.items) },
    ghost distinct: { IsDistinct same_spot spots.keys } by { Prim.hlevel props },
}

impl<'a> Places<'a> {
    /// The tokens by their places. Where two stand in one place, which no source has, this gives
    /// out of memory.
    #[tactic(auto, using(crate::proofs::Spots::spot_laws))]
    pub fn new(alloc: Global, tokens: Vec<&'a Token>) -> Result<Places<'a>, Memory>
        ensures { IfOk result (λ places. tokens_shown places.tokens.items ≡ tokens_shown tokens.entry.items) }
    {
        let spots = spots_in(alloc, tokens.as_slice())?;
        Ok(Places { tokens, spots })
    }

    /// Whether one of the tokens stands in the place of this one.
    #[tactic(auto, using(crate::proofs::Spots::spot_laws))]
    pub fn contains(&self, token: &Token) -> bool
        ensures { result ≡ list_any (same_place token.now) (tokens_shown self.now.tokens.items) }
    {
        self.spots.contains(&(token.place.line, token.place.column))
    }

    /// The index of the token that stands in the place of this one.
    #[tactic(auto, using(crate::proofs::Spots::spot_laws))]
    pub fn position(&self, token: &Token) -> Option<usize>
        ensures value { result ≡ position (same_spot (spot token.now)) (spots_of (tokens_shown self.now.tokens.items)) }
        ensures within { IfSome result (λ place. place < length self.now.tokens.items) }
        ensures distinct { IsDistinct same_spot (spots_of (tokens_shown self.now.tokens.items)) }
    {
        self.spots
            .get_index_of(&(token.place.line, token.place.column))
    }
}

/// The places of tokens.
#[tactic(auto, using(crate::proofs::Spots::spot_laws))]
fn spots_in(alloc: Global, tokens: &[&Token]) -> Result<IndexSet<(u32, u32)>, Memory>
    ensures placed { IfOk result (λ spots. spots.keys ≡ spots_of (tokens_shown tokens.entry.now)) }
    ensures distinct { IfOk result (λ spots. IsDistinct same_spot spots.keys) }
{
    let mut spots = IndexSet::new(alloc);
    'tokens: for token in tokens {
        let (_, is_new) = spots.insert_full((token.place.line, token.place.column))?;
        if !is_new {
            return Err(Memory);
        }
    }
    Ok(spots)
}
