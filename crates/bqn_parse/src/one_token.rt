ghost use Rattle.std.specs.Prelude.{◌≡◌, ◌≤◌, ◌^◌, List, drop, length, true};
ghost use Rattle.bqn_syntax.specs.declared.token.Token.{Token};
ghost use Rattle.bqn_syntax.specs.grammar.Parsing as parsing;
ghost use Rattle.bqn_syntax.specs.grammar.Sorts.{sort_of};
ghost use Rattle.bqn_parse.specs.Looking.{ahead_shown};
ghost use Rattle.bqn_parse.specs.Views.{item_of};
ghost use Rattle.bqn_parse.specs.Walking.{from_first, bracket_shown, walk_shown, Moves};

use crate::close::close;
use crate::draft::Draft;
use crate::error::ParseError;
use crate::item::{Element, Item};
use crate::judge::{ask, end, first_place, formless};
use crate::looks::Ahead;
use crate::open_bracket::{OpenBracket, Walk, new_bracket};
use bqn_base::{Place, Refusal};
use bqn_headers::{HeadError, header};
use bqn_syntax::{Bracket, Inside, Sort, Token};
use std::alloc::Global;
use std::mem;

/// So many brackets may be open at once.
const DEEPEST: usize = 128;

/// What the pieces of a list stand in, by what stands after it and by what it stands in.
fn list_inside(ahead: Ahead, inside: Inside, at_head: bool) -> Inside
    ensures { result ≡ parsing.list_inside (ahead_shown ahead) inside at_head }
{
    match inside {
        Inside::Pattern => Inside::Pattern,
        Inside::HeaderPattern => {
            if ahead.arrow {
                Inside::Pattern
            } else {
                Inside::HeaderPattern
            }
        }
        Inside::Block => {
            if ahead.arrow {
                Inside::Pattern
            } else if at_head && ahead.colon {
                Inside::HeaderPattern
            } else {
                Inside::List
            }
        }
        Inside::Program | Inside::Parens | Inside::List | Inside::Merge => {
            if ahead.arrow {
                Inside::Pattern
            } else {
                Inside::List
            }
        }
    }
}

/// What pieces stand in after a bracket that opens here.
fn inside_of(bracket: Bracket, ahead: Ahead, inner: &OpenBracket<'_>) -> Inside
    ensures { (tokens : List Token) → result ≡ parsing.inside_of bracket (ahead_shown ahead) (bracket_shown tokens inner.now) }
{
    match bracket {
        Bracket::Round => Inside::Parens,
        Bracket::Square => Inside::Merge,
        Bracket::Curly => Inside::Block,
        Bracket::Angle => list_inside(ahead, inner.inside, inner.is_first_piece()),
    }
}

/// One more item in the innermost bracket.
#[inline(always)]
fn take<'t>(index: usize, item: Item<'t>, walk: &mut Walk<'t>) -> Result<(), ParseError>
    ensures { (tokens : List Token) → Moves (parsing.taken (item_of item.entry) (drop index tokens) (walk_shown tokens walk.old))
        (walk_shown tokens walk.new) result }
{
    walk.inner.begin(index);
    walk.inner.and_item(item)?;
    Ok(())
}

/// A bracket opens.
#[tactic(auto, using(crate::proofs::Stepping::open_laws))]
fn enter<'t>(
    alloc: Global,
    inside: Inside,
    index: usize,
    place: Place,
    walk: &mut Walk<'t>,
) -> Result<(), ParseError>
    ensures { (tokens : List Token) → Moves (parsing.opened inside (drop index tokens) place (walk_shown tokens walk.old)) (walk_shown tokens walk.new) result }
{
    if walk.outer.len() >= DEEPEST {
        return Err(ParseError::Refused(Refusal::TooNested(place)));
    }
    walk.inner.begin(index);
    let inner = new_bracket(alloc, inside, place, &mut walk.spare)?;
    let around = mem::replace(&mut walk.inner, inner);
    walk.outer.push(around)?;
    Ok(())
}

/// A separator.
fn separate<'t>(
    alloc: Global,
    tokens: &[Token],
    index: usize,
    place: Place,
    walk: &mut Walk<'t>,
) -> Result<(), ParseError>
    ensures { Moves (parsing.separated walk.old.inner.value.inside (drop index tokens.now) place (walk_shown tokens.now walk.old))
        (walk_shown tokens.now walk.new) result }
{
    match walk.inner.inside {
        Inside::Parens => take(index, Item::Wrong, walk),
        _ => end(alloc, tokens, place, &mut walk.inner),
    }
}

/// The last piece of a body ends, and the body with it.
fn end_body<'t>(
    alloc: Global,
    tokens: &[Token],
    place: Place,
    inner: &mut OpenBracket<'t>,
) -> Result<(), ParseError>
    ensures { Moves (parsing.body_ended (parsing.ended place (bracket_shown tokens.now inner.old))) (bracket_shown tokens.now inner.new) result }
{
    end(alloc, tokens, place, inner)?;
    inner.end_body(alloc)?;
    Ok(())
}

/// `;`
fn semicolon<'t>(
    alloc: Global,
    tokens: &[Token],
    index: usize,
    place: Place,
    walk: &mut Walk<'t>,
) -> Result<(), ParseError>
    ensures { Moves (parsing.semicolon walk.old.inner.value.inside (drop index tokens.now) place (walk_shown tokens.now walk.old))
        (walk_shown tokens.now walk.new) result }
{
    match walk.inner.inside {
        Inside::Block => end_body(alloc, tokens, place, &mut walk.inner),
        _ => take(index, Item::Wrong, walk),
    }
}

/// `?`
fn question<'t>(
    alloc: Global,
    tokens: &[Token],
    index: usize,
    place: Place,
    walk: &mut Walk<'t>,
) -> Result<(), ParseError>
    ensures { Moves (parsing.question walk.old.inner.value.inside (drop index tokens.now) place (walk_shown tokens.now walk.old))
        (walk_shown tokens.now walk.new) result }
{
    match walk.inner.inside {
        Inside::Block => ask(alloc, tokens, place, &mut walk.inner),
        _ => take(index, Item::Wrong, walk),
    }
}

/// The tokens of the piece that ends before the token with this index.
#[tactic(auto, using(crate::proofs::Stepping::piece_laws))]
fn piece(tokens: &[Token], first: Option<usize>, index: usize) -> &[Token]
    requires { index ≤ length tokens.now }
    ensures piece { result.now ≡ parsing.tokens_before (from_first tokens.now first) (drop index tokens.now) }
    ensures short { length result.now ≤ length tokens.now }
{
    let Some(first) = first else {
        return &[];
    };
    if first > index {
        return &[];
    }
    &tokens[first..index]
}

/// The piece that is being read is the header of a body.
fn head<'t>(
    alloc: Global,
    tokens: &[Token],
    index: usize,
    place: Place,
    inner: &mut OpenBracket<'t>,
) -> Result<(), ParseError>
    requires within { index ≤ length tokens.now }
    requires few { length tokens.now ≤ 2 ^ 28 }
    ensures { Moves (parsing.headed true (drop index tokens.now) place (bracket_shown tokens.now inner.old)) (bracket_shown tokens.now inner.new) result }
{
    match header(alloc, piece(tokens, inner.first, index)) {
        Ok(h) => {
            inner.and_header(h);
            Ok(())
        }
        Err(HeadError::Bad) => Err(ParseError::Refused(Refusal::BadBlock(first_place(
            tokens,
            inner.first,
            place,
        )))),
        Err(HeadError::Memory) => Err(ParseError::Memory),
    }
}

/// The piece that is being read ends at a `:`.
#[tactic(auto, using(crate::proofs::Stepping::head_laws))]
fn end_head<'t>(
    alloc: Global,
    tokens: &[Token],
    index: usize,
    place: Place,
    inner: &mut OpenBracket<'t>,
) -> Result<(), ParseError>
    requires within { index ≤ length tokens.now }
    requires few { length tokens.now ≤ 2 ^ 28 }
    ensures { Moves (parsing.headed_by (bracket_shown tokens.now inner.old).items (drop index tokens.now) place (bracket_shown tokens.now inner.old))
        (bracket_shown tokens.now inner.new) result }
{
    if inner.items.is_empty() {
        return Err(ParseError::Refused(Refusal::Grammar(place)));
    }
    if !inner.is_first_piece() {
        return Err(formless(tokens, place, inner));
    }
    head(alloc, tokens, index, place, inner)
}

/// `:`
fn colon<'t>(
    alloc: Global,
    tokens: &[Token],
    index: usize,
    place: Place,
    walk: &mut Walk<'t>,
) -> Result<(), ParseError>
    requires within { index ≤ length tokens.now }
    requires few { length tokens.now ≤ 2 ^ 28 }
    ensures { Moves (parsing.colon walk.old.inner.value.inside (drop index tokens.now) place (walk_shown tokens.now walk.old))
        (walk_shown tokens.now walk.new) result }
{
    match walk.inner.inside {
        Inside::Block => end_head(alloc, tokens, index, place, &mut walk.inner),
        _ => take(index, Item::Wrong, walk),
    }
}

/// One token, which has this index and after whose bracket this stands.
#[tactic(auto, using(bqn_syntax::specs::grammar::TreeEquations::tree_equations))]
#[inline(always)]
pub fn step<'t>(
    alloc: Global,
    tokens: &[Token],
    index: usize,
    token: &'t Token,
    ahead: Ahead,
    walk: &mut Walk<'t>,
) -> Result<(), ParseError>
    requires within { index ≤ length tokens.now }
    requires few { length tokens.now ≤ 2 ^ 28 }
    ensures { Moves (parsing.step (sort_of token.now.kind) (ahead_shown ahead) token.now (drop index tokens.now) (walk_shown tokens.now walk.old))
        (walk_shown tokens.now walk.new) result }
{
    let place = token.place;
    match token.kind.sort() {
        Sort::Opens(bracket) => {
            let inside = inside_of(bracket, ahead, &walk.inner);
            enter(alloc, inside, index, place, walk)
        }
        Sort::Closes(bracket) => close(alloc, tokens, place, bracket, walk),
        Sort::Separates => separate(alloc, tokens, index, place, walk),
        Sort::Ends => semicolon(alloc, tokens, index, place, walk),
        Sort::Asks => question(alloc, tokens, index, place, walk),
        Sort::Heads => colon(alloc, tokens, index, place, walk),
        Sort::Draws(arrow) => take(index, Item::Drawn(arrow), walk),
        Sort::Joins => take(index, Item::Joining, walk),
        Sort::Selects => take(index, Item::Selecting, walk),
        Sort::Skips => take(
            index,
            Item::Standing(Element::Part(Draft::Nothing(token))),
            walk,
        ),
        Sort::Stands => {
            let draft = Draft::Token(token);
            take(index, Item::Standing(Element::Part(draft)), walk)
        }
    }
}
