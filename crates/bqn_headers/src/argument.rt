ghost use Rattle.std.specs.Prelude.{◌≡◌};
ghost use Rattle.std.specs.Option.{option_map};
ghost use Rattle.bqn_syntax.specs.grammar.Trees.{Name, pattern_of};
ghost use Rattle.bqn_syntax.specs.grammar.Headers as Headers;
ghost use Rattle.bqn_headers.specs.Elements.{element_shown, group_shown};
ghost use Rattle.bqn_headers.specs.Forms.{lone_is, stands_outermost};
ghost use Rattle.bqn_headers.specs.Heading.{Finds};

use crate::element::{Element, group_pattern};
use crate::error::HeadError;
use crate::name::{is_left, is_left_operand, is_right, is_right_operand, is_subject, own_tag};
use crate::queue::Queue;
use bqn_syntax::{Pattern, Tag, Token};
use std::alloc::Global;

/// What a group is as the name of the block's own function or modifier.
#[tactic(auto, using(crate::proofs::Forms::lone_laws))]
pub(crate) fn group_tag(group: &Queue<Element>) -> Tag
    ensures { result ≡ Headers.group_tag (group_shown group.now) }
{
    match group.only() {
        Some(Element::Leaf(token)) => own_tag(&token.kind),
        _ => Tag::Nothing,
    }
}

/// The token that a group is, where it is one.
#[tactic(auto, using(crate::proofs::Forms::lone_laws))]
pub(crate) fn lone_token(group: Queue<Element>) -> Option<Token>
    ensures { result ≡ Headers.lone_token (group_shown group) }
{
    match group.into_only() {
        Some(Element::Leaf(token)) => Some(token),
        _ => None,
    }
}

/// `𝕗`, `𝔽`, or the name of a subject or a function.
pub(crate) fn left_operand(group: Queue<Element>) -> Result<Token, HeadError>
    ensures { Finds (Headers.left_operand (group_shown group)) (λ t. t) result }
{
    let Some(token) = lone_token(group) else {
        return Err(HeadError::Bad);
    };
    if !is_left_operand(&token.kind) {
        return Err(HeadError::Bad);
    }
    Ok(token)
}

/// `𝕘`, `𝔾`, or the name of a subject or a function.
pub(crate) fn right_operand(group: Queue<Element>) -> Result<Token, HeadError>
    ensures { Finds (Headers.right_operand (group_shown group)) (λ t. t) result }
{
    let Some(token) = lone_token(group) else {
        return Err(HeadError::Bad);
    };
    if !is_right_operand(&token.kind) {
        return Err(HeadError::Bad);
    }
    Ok(token)
}

/// Whether a pattern may be an argument of a header: of names only a subject's is one.
#[tactic(auto, using(bqn_syntax::specs::grammar::TreeEquations::tree_equations))]
fn may_be_argument(pattern: &Pattern) -> bool
    ensures { result ≡ stands_outermost (pattern_of pattern.now) }
{
    match pattern {
        Pattern::Name(token) => is_subject(&token.kind),
        Pattern::Skip(_) | Pattern::Literal(_) | Pattern::List(_) | Pattern::Strand(_) => true,
    }
}

#[tactic(auto, using(crate::proofs::Forms::argument_laws))]
fn header_pattern(alloc: Global, group: Queue<Element>) -> Result<Pattern, HeadError>
    ensures { Finds (Headers.header_pattern (group_shown group)) pattern_of result }
{
    let pattern = group_pattern(alloc, group)?;
    if !may_be_argument(&pattern) {
        return Err(HeadError::Bad);
    }
    Ok(pattern)
}

/// The name that a group is.
#[tactic(auto, using(bqn_syntax::specs::grammar::TreeEquations::tree_equations))]
fn lone_name(group: Queue<Element>) -> Result<Pattern, HeadError>
    ensures { Finds (option_map Name (Headers.lone_token (group_shown group))) pattern_of result }
{
    match lone_token(group) {
        Some(token) => Ok(Pattern::Name(token)),
        None => Err(HeadError::Bad),
    }
}

#[tactic(auto, using(crate::proofs::Forms::lone_laws))]
fn is_lone_left(group: &Queue<Element>) -> bool
    ensures { result ≡ lone_is Headers.is_left (group_shown group.now) }
{
    match group.only() {
        Some(Element::Leaf(token)) => is_left(&token.kind),
        _ => false,
    }
}

#[tactic(auto, using(crate::proofs::Forms::lone_laws))]
fn is_lone_right(group: &Queue<Element>) -> bool
    ensures { result ≡ lone_is Headers.is_right (group_shown group.now) }
{
    match group.only() {
        Some(Element::Leaf(token)) => is_right(&token.kind),
        _ => false,
    }
}

/// `𝕨` or a header pattern.
#[tactic(auto, using(crate::proofs::Forms::argument_laws))]
pub(crate) fn left_argument(alloc: Global, group: Queue<Element>) -> Result<Pattern, HeadError>
    ensures { Finds (Headers.left_argument (group_shown group)) pattern_of result }
{
    if is_lone_left(&group) {
        return lone_name(group);
    }
    header_pattern(alloc, group)
}

/// `𝕩` or a header pattern.
#[tactic(auto, using(crate::proofs::Forms::argument_laws))]
pub(crate) fn right_argument(alloc: Global, group: Queue<Element>) -> Result<Pattern, HeadError>
    ensures { Finds (Headers.right_argument (group_shown group)) pattern_of result }
{
    if is_lone_right(&group) {
        return lone_name(group);
    }
    header_pattern(alloc, group)
}
