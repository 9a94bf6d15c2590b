ghost use Rattle.std.specs.Prelude.{◌≡◌};
ghost use Rattle.bqn_base.specs.declared.refusal.Refusal.TheVariants as refusal;
ghost use Rattle.bqn_parse.specs.declared.error.ParseError.TheVariants as error;
ghost use Rattle.bqn_syntax.specs.grammar.Expressions as expressions;
ghost use Rattle.bqn_syntax.specs.grammar.Items as items;
ghost use Rattle.bqn_syntax.specs.grammar.Parsing as parsing;
ghost use Rattle.bqn_parse.specs.Walking.{from_first, bracket_shown, Moves};

use crate::error::ParseError;
use crate::open_bracket::OpenBracket;
use crate::reading::pattern::pattern;
use crate::reading::pieces::{piece_expression, piece_predicate, piece_statement};
use bqn_base::{Place, Refusal};
use bqn_syntax::{Inside, Token};
use std::alloc::Global;

/// The place of a piece's first token, or else this one.
#[tactic(auto, using(crate::proofs::Walking::place_laws))]
pub fn first_place(tokens: &[Token], first: Option<usize>, place: Place) -> Place
    ensures { result ≡ parsing.place_of_first (from_first tokens.now first) place }
{
    let Some(first) = first else {
        return place;
    };
    match tokens.get(first) {
        None => place,
        Some(token) => token.place,
    }
}

/// A piece that has no form is refused at its first token.
pub fn formless(tokens: &[Token], place: Place, inner: &OpenBracket<'_>) -> ParseError
    ensures { result ≡ error.Refused (refusal.Grammar (parsing.place_of_first (from_first tokens.now inner.now.first) place)) }
{
    ParseError::Refused(Refusal::Grammar(first_place(tokens, inner.first, place)))
}

/// The piece that is being read is a statement.
fn judge_statement<'t>(
    alloc: Global,
    tokens: &[Token],
    place: Place,
    inner: &mut OpenBracket<'t>,
) -> Result<(), ParseError>
    ensures { Moves (parsing.well place parsing.and_statement (expressions.piece_statement (bracket_shown tokens.now inner.old).items)
        (bracket_shown tokens.now inner.old)) (bracket_shown tokens.now inner.new) result }
{
    match piece_statement(alloc, &mut inner.items, &mut inner.units)? {
        None => Err(formless(tokens, place, inner)),
        Some(s) => inner.and_statement(s),
    }
}

/// The piece that is being read is a predicate.
fn judge_predicate<'t>(
    alloc: Global,
    tokens: &[Token],
    place: Place,
    inner: &mut OpenBracket<'t>,
) -> Result<(), ParseError>
    ensures { Moves (parsing.well place parsing.and_statement (expressions.piece_predicate (bracket_shown tokens.now inner.old).items)
        (bracket_shown tokens.now inner.old)) (bracket_shown tokens.now inner.new) result }
{
    match piece_predicate(alloc, &mut inner.items, &mut inner.units)? {
        None => Err(formless(tokens, place, inner)),
        Some(s) => inner.and_statement(s),
    }
}

/// The piece that is being read is an expression.
fn judge_expression<'t>(
    alloc: Global,
    tokens: &[Token],
    place: Place,
    inner: &mut OpenBracket<'t>,
) -> Result<(), ParseError>
    ensures { Moves (parsing.well place parsing.and_expression (expressions.piece_expression (bracket_shown tokens.now inner.old).items)
        (bracket_shown tokens.now inner.old)) (bracket_shown tokens.now inner.new) result }
{
    match piece_expression(alloc, &mut inner.items, &mut inner.units)? {
        None => Err(formless(tokens, place, inner)),
        Some(e) => inner.and_expression(e),
    }
}

/// The piece that is being read is a pattern, whose leaves may be literals where they are allowed.
fn judge_target<'t>(
    alloc: Global,
    tokens: &[Token],
    place: Place,
    inner: &mut OpenBracket<'t>,
    literals: bool,
) -> Result<(), ParseError>
    ensures { Moves (parsing.well place parsing.and_target (items.piece_pattern literals (bracket_shown tokens.now inner.old).items)
        (bracket_shown tokens.now inner.old)) (bracket_shown tokens.now inner.new) result }
{
    match pattern(alloc, literals, &mut inner.items)? {
        None => Err(formless(tokens, place, inner)),
        Some(q) => inner.and_target(q),
    }
}

/// The piece that is being read is judged by what it stands in.
fn judge<'t>(
    alloc: Global,
    tokens: &[Token],
    place: Place,
    inner: &mut OpenBracket<'t>,
) -> Result<(), ParseError>
    ensures { Moves (parsing.judged inner.old.inside place (bracket_shown tokens.now inner.old)) (bracket_shown tokens.now inner.new) result }
{
    match inner.inside {
        Inside::Program | Inside::Block => judge_statement(alloc, tokens, place, inner),
        Inside::Parens | Inside::List | Inside::Merge => judge_expression(
            alloc, tokens, place, inner,
        ),
        Inside::Pattern => judge_target(alloc, tokens, place, inner, false),
        Inside::HeaderPattern => judge_target(alloc, tokens, place, inner, true),
    }
}

/// The piece that is being read ends at the token at this place. An empty one is none, but
/// parentheses hold one.
#[tactic(auto, using(crate::proofs::Walking::end_laws))]
#[inline(always)]
pub fn end<'t>(
    alloc: Global,
    tokens: &[Token],
    place: Place,
    inner: &mut OpenBracket<'t>,
) -> Result<(), ParseError>
    ensures { Moves (parsing.ended place (bracket_shown tokens.now inner.old)) (bracket_shown tokens.now inner.new) result }
{
    if !inner.items.is_empty() {
        return judge(alloc, tokens, place, inner);
    }
    match inner.inside {
        Inside::Parens => Err(ParseError::Refused(Refusal::Grammar(place))),
        _ => Ok(()),
    }
}

/// The piece that is being read ends at a `?`.
#[tactic(auto, using(crate::proofs::Walking::end_laws))]
pub fn ask<'t>(
    alloc: Global,
    tokens: &[Token],
    place: Place,
    inner: &mut OpenBracket<'t>,
) -> Result<(), ParseError>
    ensures { Moves (parsing.asked (bracket_shown tokens.now inner.old).items place (bracket_shown tokens.now inner.old))
        (bracket_shown tokens.now inner.new) result }
{
    if inner.items.is_empty() {
        return Err(ParseError::Refused(Refusal::Grammar(place)));
    }
    judge_predicate(alloc, tokens, place, inner)
}
