ghost use Rattle.std.specs.Prelude.{◌≡◌, map, IfOk};
ghost use Rattle.std.specs.Option.{option_map};
ghost use Rattle.bqn_syntax.specs.grammar.Items as items;
ghost use Rattle.bqn_syntax.specs.grammar.Trees.{part_of, pattern_of};
ghost use Rattle.bqn_parse.specs.Views.{element_of};
ghost use Rattle.bqn_parse.specs.Strands.{elements_of};

use crate::draft::{Draft, part};
use crate::growth::{push, with_room};
use crate::item::Element;
use bqn_base::{Memory, Row};
use bqn_syntax::{Kind, Part, Pattern, Token};
use std::alloc::Global;

/// The pattern that a token is, or none: a name, or a literal where there may be some.
#[tactic(auto, using(bqn_syntax::specs::grammar::TreeEquations::tree_equations))]
fn leaf_pattern(literals: bool, token: &Token) -> Result<Option<Pattern>, Memory>
    ensures { IfOk result (λ q. option_map pattern_of q ≡ items.leaf_pattern literals token.now.kind token.now) }
{
    match &token.kind {
        Kind::Word(..) => Ok(Some(Pattern::Name(token.copy()?))),
        Kind::Number(_) | Kind::Char(_) | Kind::Text(_) => {
            if literals {
                Ok(Some(Pattern::Literal(token.copy()?)))
            } else {
                Ok(None)
            }
        }
        Kind::System(..) | Kind::Special(..) | Kind::Given(_) | Kind::Punct(_) => Ok(None),
    }
}

/// The pattern that an element is, or none.
#[tactic(auto, using(bqn_syntax::specs::grammar::TreeEquations::tree_equations))]
pub fn element_pattern(literals: bool, element: Element<'_>) -> Result<Option<Pattern>, Memory>
    ensures { IfOk result (λ q. option_map pattern_of q ≡ items.element_pattern literals (element_of element.entry)) }
{
    match element {
        Element::Part(Draft::Token(token)) => leaf_pattern(literals, token),
        Element::Part(Draft::Nothing(skip)) => Ok(Some(Pattern::Skip(skip.place))),
        Element::Part(_) => Ok(None),
        Element::List(pattern) => Ok(Some(pattern.into_inner())),
    }
}

/// The part that an element is, or none: `·` is no element of a strand.
#[tactic(auto, using(bqn_syntax::specs::grammar::TreeEquations::tree_equations))]
pub fn element_part(alloc: Global, element: Element<'_>) -> Result<Option<Part>, Memory>
    ensures { IfOk result (λ part. option_map part_of part ≡ items.element_part (element_of element.entry)) }
{
    match element {
        Element::Part(Draft::Nothing(_)) => Ok(None),
        Element::Part(draft) => Ok(Some(part(alloc, draft)?)),
        Element::List(_) => Ok(None),
    }
}

/// The patterns that elements are, or none where one of them is no pattern.
#[tactic(auto, using(crate::proofs::Strands::each_laws))]
pub fn element_patterns<'t>(
    alloc: Global,
    literals: bool,
    elements: Vec<Element<'t>>,
) -> Result<Option<Row<Pattern>>, Memory>
    ensures { IfOk result (λ all. option_map (map pattern_of) all ≡ items.each (items.element_pattern literals) (elements_of elements.entry.items)) }
{
    let mut patterns = with_room(alloc, elements.len())?;
    'elements: for element in elements {
        match element_pattern(literals, element)? {
            Some(pattern) => push(&mut patterns, pattern)?,
            None => return Ok(None),
        }
    }
    Ok(Some(Row::new(patterns)))
}

/// The parts that elements are, or none where one of them is no part.
#[tactic(auto, using(crate::proofs::Strands::each_laws))]
pub fn element_parts<'t>(
    alloc: Global,
    elements: Vec<Element<'t>>,
) -> Result<Option<Row<Part>>, Memory>
    ensures { IfOk result (λ all. option_map (map part_of) all ≡ items.each items.element_part (elements_of elements.entry.items)) }
{
    let mut parts = with_room(alloc, elements.len())?;
    'elements: for element in elements {
        match element_part(alloc, element)? {
            Some(part) => push(&mut parts, part)?,
            None => return Ok(None),
        }
    }
    Ok(Some(Row::new(parts)))
}
