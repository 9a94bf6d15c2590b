ghost use Rattle.std.specs.Prelude.{◌≡◌, ◌≤◌, ◌<◌, ◌+◌, ◌^◌, ◌++◌, length};
ghost use Rattle.std.specs.Vec.{vec_capacity, vec_len};
ghost use Rattle.bqn_syntax.specs.text.Tokens.{tokens_of_text};
ghost use Rattle.bqn_token.specs.Tokenizing.{Tokenizes, token_at};

use crate::error::TokenError;
use crate::extent::longest_piece;
use crate::kinds::{is_short, kind_at, missing_piece, short_kind};
use crate::place::{FIRST, place_behind, place_past};
use crate::recent::Recent;
use crate::single::{kind_of_alone, single};
use bqn_base::Place;
use bqn_syntax::{Kind, Token};
use std::alloc::Global;

/// Adds the token of a piece at a place, if it has one.
#[inline(always)]
fn add(tokens: &mut Vec<Token>, kind: Option<Kind>, place: Place)
    requires { vec_len tokens.old < vec_capacity tokens.old }
    ensures added { tokens.new.items ≡ tokens.old.items ++ token_at kind place }
    ensures length { vec_len tokens.new ≤ vec_len tokens.old + 1 }
    ensures capacity { vec_capacity tokens.new ≡ vec_capacity tokens.old }
{
    if let Some(kind) = kind {
        tokens.push_reserved(Token { kind, place });
    }
}

/// The tokens of a text, piece by piece.
///
/// # Errors
///
/// The refusal of the leftmost bad token, and want of memory.
#[tactic(auto, using(crate::proofs::Pieces::cut_laws))]
pub(crate) fn tokens_in(alloc: Global, text: &[char]) -> Result<Vec<Token>, TokenError>
    requires { length text.now ≤ 2 ^ 20 }
    ensures { Tokenizes (tokens_of_text text.now) result }
{
    let mut tokens = Vec::with_capacity(alloc, text.len())?;
    let mut recent = Recent::new(alloc)?;
    let mut rest = text;
    let mut place = FIRST;
    'pieces: while let Some((first, behind)) = rest.split_first() {
        let first = *first;
        if let Some(alone) = single(first) {
            add(&mut tokens, kind_of_alone(alone, first), place);
            place = place_past(first, place);
            rest = behind;
            continue;
        }
        if is_short(first, behind) {
            let kind = short_kind(&mut recent, first)?;
            add(&mut tokens, Some(kind), place);
            place = place_past(first, place);
            rest = behind;
            continue;
        }
        let Some(count) = longest_piece(rest) else {
            return Err(TokenError::Refused(missing_piece(first, place)));
        };
        let (piece, after) = rest.split_at(count);
        match kind_at(alloc, &mut recent, piece, place) {
            Ok(kind) => add(&mut tokens, kind, place),
            Err(error) => return Err(error),
        }
        place = place_behind(piece, place);
        rest = after;
    }
    Ok(tokens)
}
