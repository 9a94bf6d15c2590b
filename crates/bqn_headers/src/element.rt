ghost use Rattle.std.specs.Prelude.{◌≡◌, true, map};
ghost use Rattle.std.specs.Option.{option_map};
ghost use Rattle.bqn_syntax.specs.grammar.Trees.{pattern_of};
ghost use Rattle.bqn_syntax.specs.grammar.Items as Items;
ghost use Rattle.bqn_headers.specs.Elements.{element_shown, group_shown};
ghost use Rattle.bqn_headers.specs.Heading.{Finds};

use crate::error::HeadError;
use crate::name::{is_a_literal, is_a_word};
use crate::queue::Queue;
use bqn_base::{Place, Row};
use bqn_syntax::{Pattern, Token};
use std::alloc::Global;

/// What stands as one in a piece of a header.
#[derive(Drop)]
pub(crate) enum Element {
    /// A single token.
    Leaf(Token),
    /// `·`
    Skip(Place),
    /// A list in brackets, which is a pattern.
    List(Pattern),
}

/// An element, or a `‿`.
#[derive(Drop)]
pub(crate) enum Item {
    Standing(Element),
    Joining,
}

/// A name or a literal, as a pattern.
#[tactic(auto, using(bqn_syntax::specs::grammar::TreeEquations::tree_equations, crate::proofs::Patterns::leaf_laws))]
fn leaf_pattern(token: Token) -> Option<Pattern>
    ensures { option_map pattern_of result ≡ Items.leaf_pattern true token.kind token }
{
    if is_a_word(&token.kind) {
        return Some(Pattern::Name(token));
    }
    if is_a_literal(&token.kind) {
        return Some(Pattern::Literal(token));
    }
    None
}

#[tactic(auto, using(bqn_syntax::specs::grammar::TreeEquations::tree_equations))]
fn element_pattern(element: Element) -> Option<Pattern>
    ensures { option_map pattern_of result ≡ Items.element_pattern true (element_shown element) }
{
    match element {
        Element::Leaf(token) => leaf_pattern(token),
        Element::Skip(place) => Some(Pattern::Skip(place)),
        Element::List(pattern) => Some(pattern),
    }
}

/// The patterns that the elements of a strand are.
#[tactic(auto, using(crate::proofs::Patterns::each_laws))]
fn patterns(alloc: Global, elements: Queue<Element>) -> Result<Row<Pattern>, HeadError>
    ensures { Finds (Items.each (Items.element_pattern true) (group_shown elements)) (map pattern_of) result }
{
    let mut elements = elements;
    let mut patterns = Vec::with_capacity(alloc, elements.len())?;
    'elements: while let Some(element) = elements.pop() {
        let Some(pattern) = element_pattern(element) else {
            return Err(HeadError::Bad);
        };
        patterns.push(pattern)?;
    }
    Ok(Row::new(patterns))
}

/// The pattern that joined elements are: one element, or a strand.
#[tactic(auto, using(bqn_syntax::specs::grammar::TreeEquations::tree_equations, crate::proofs::Patterns::group_laws))]
pub(crate) fn group_pattern(alloc: Global, group: Queue<Element>) -> Result<Pattern, HeadError>
    ensures { Finds (Items.group_pattern true (group_shown group)) pattern_of result }
{
    if group.len() >= 2 {
        return Ok(Pattern::Strand(patterns(alloc, group)?));
    }
    let Some(element) = group.into_only() else {
        return Err(HeadError::Bad);
    };
    match element_pattern(element) {
        Some(pattern) => Ok(pattern),
        None => Err(HeadError::Bad),
    }
}
