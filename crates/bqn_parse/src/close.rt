ghost use Rattle.std.specs.Prelude.{◌≡◌, List, map, Ok};
ghost use Rattle.bqn_syntax.specs.declared.token.Token.{Token};
ghost use Rattle.bqn_base.specs.declared.place.Place.{Place};
ghost use Rattle.bqn_syntax.specs.declared.sort.Inside.TheVariants as inside;
ghost use Rattle.bqn_syntax.specs.grammar.Parsing as parsing;
ghost use Rattle.bqn_syntax.specs.grammar.Trees.{expr_of};
ghost use Rattle.bqn_parse.specs.Views.{element_of};
ghost use Rattle.bqn_parse.specs.Walking.{around_shown, bracket_shown, walk_shown, Made, Moves};

use crate::blocks::block;
use crate::draft::{Draft, boxed};
use crate::error::ParseError;
use crate::growth::{push, taken};
use crate::item::{Element, Item};
use crate::judge::end;
use crate::open_bracket::{OpenBracket, Walk};
use bqn_base::{Place, Refusal, Row};
use bqn_syntax::{Bracket, Expr, Inside, Pattern, Token};
use std::alloc::Global;
use std::mem;

/// Whether such a bracket closes what pieces stand in.
fn closes(bracket: Bracket, inside: Inside) -> bool
    ensures { result ≡ parsing.closes bracket inside }
{
    match bracket {
        Bracket::Round => matches!(inside, Inside::Parens),
        Bracket::Square => matches!(inside, Inside::Merge),
        Bracket::Curly => matches!(inside, Inside::Block),
        Bracket::Angle => matches!(
            inside,
            Inside::List | Inside::Pattern | Inside::HeaderPattern
        ),
    }
}

/// Parentheses that hold these pieces.
#[tactic(auto, using(bqn_syntax::specs::grammar::TreeEquations::tree_equations, crate::proofs::Closing::parens_laws))]
fn parens<'t>(
    alloc: Global,
    place: Place,
    pieces: &mut Vec<Expr>,
) -> Result<Element<'t>, ParseError>
    ensures { Made (parsing.parens_part place (map expr_of pieces.old.items)) element_of result }
{
    let Some(piece) = pieces.pop() else {
        return Err(ParseError::Refused(Refusal::Grammar(place)));
    };
    if !pieces.is_empty() {
        return Err(ParseError::Refused(Refusal::Grammar(place)));
    }
    Ok(Element::Part(Draft::Paren(boxed(alloc, piece)?)))
}

/// The array whose cells are these pieces; it has one at least.
#[tactic(auto, using(bqn_syntax::specs::grammar::TreeEquations::tree_equations, crate::proofs::Closing::merge_laws))]
fn merge<'t>(alloc: Global, place: Place, pieces: &mut Vec<Expr>) -> Result<Element<'t>, ParseError>
    ensures { Made (parsing.merge_part place (map expr_of pieces.old.items)) element_of result }
{
    if pieces.is_empty() {
        return Err(ParseError::Refused(Refusal::Grammar(place)));
    }
    let all = boxed(alloc, Row::new(taken(alloc, pieces)?))?;
    Ok(Element::Part(Draft::Merge(all)))
}

/// The block that an open brace is; its last body ends.
fn whole_block<'t>(alloc: Global, inner: &mut OpenBracket<'t>) -> Result<Element<'t>, ParseError>
    ensures { (tokens : List Token) (place : Place) → Made (parsing.whole inside.Block place (bracket_shown tokens inner.old)) element_of result }
{
    inner.end_body(alloc)?;
    let done = taken(alloc, &mut inner.done)?;
    block(alloc, inner.opened, done)
}

/// What an open bracket is as one element, where it closes at this place.
#[tactic(auto, using(bqn_syntax::specs::grammar::TreeEquations::tree_equations))]
fn whole<'t>(
    alloc: Global,
    place: Place,
    inner: &mut OpenBracket<'t>,
) -> Result<Element<'t>, ParseError>
    ensures { (tokens : List Token) → Made (parsing.whole inner.old.inside place (bracket_shown tokens inner.old)) element_of result }
{
    match inner.inside {
        Inside::Parens => parens(alloc, place, &mut inner.expressions),
        Inside::List => {
            let pieces = taken(alloc, &mut inner.expressions)?;
            let all = boxed(alloc, Row::new(pieces))?;
            Ok(Element::Part(Draft::List(all)))
        }
        Inside::Merge => merge(alloc, place, &mut inner.expressions),
        Inside::Pattern | Inside::HeaderPattern => {
            let pieces = taken(alloc, &mut inner.targets)?;
            let all = boxed(alloc, Pattern::List(Row::new(pieces)))?;
            Ok(Element::List(all))
        }
        Inside::Block => whole_block(alloc, inner),
        Inside::Program => Err(ParseError::Refused(Refusal::Bracket(place))),
    }
}

/// The last piece of a bracket ends, and the bracket closes at the same place.
fn close_bracket<'t>(
    alloc: Global,
    tokens: &[Token],
    place: Place,
    inner: &mut OpenBracket<'t>,
) -> Result<Element<'t>, ParseError>
    ensures { Made (parsing.whole_of place (parsing.ended place (bracket_shown tokens.now inner.old))) element_of result }
{
    end(alloc, tokens, place, inner)?;
    whole(alloc, place, inner)
}

/// An element stands in the bracket around, which is now the innermost one.
#[tactic(auto, using(crate::proofs::Closing::hand_laws))]
fn hand<'t>(place: Place, walk: &mut Walk<'t>, element: Element<'t>) -> Result<(), ParseError>
    ensures { (tokens : List Token) → Moves (parsing.handed place (Ok (element_of element.entry)) (around_shown tokens walk.old.outer.items))
        (walk_shown tokens walk.new) result }
{
    let Some(around) = walk.outer.pop() else {
        return Err(ParseError::Refused(Refusal::Bracket(place)));
    };
    let closed = mem::replace(&mut walk.inner, around);
    push(&mut walk.spare, closed)?;
    walk.inner.and_item(Item::Standing(element))?;
    Ok(())
}

/// A bracket closes.
pub fn close<'t>(
    alloc: Global,
    tokens: &[Token],
    place: Place,
    bracket: Bracket,
    walk: &mut Walk<'t>,
) -> Result<(), ParseError>
    ensures { Moves (parsing.closed (parsing.closes bracket walk.old.inner.value.inside) place (walk_shown tokens.now walk.old))
        (walk_shown tokens.now walk.new) result }
{
    if !closes(bracket, walk.inner.inside) {
        return Err(ParseError::Refused(Refusal::Bracket(place)));
    }
    let element = close_bracket(alloc, tokens, place, &mut walk.inner)?;
    hand(place, walk, element)
}
