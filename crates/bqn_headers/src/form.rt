ghost use Rattle.std.specs.Prelude.{◌≡◌, ◌∷◌, Some};
ghost use Rattle.bqn_syntax.specs.grammar.Trees.{header_of, pattern_of};
ghost use Rattle.bqn_syntax.specs.grammar.Headers as Headers;
ghost use Rattle.bqn_headers.specs.Elements.{group_shown, groups_shown};
ghost use Rattle.bqn_headers.specs.Forms as Forms;
ghost use Rattle.bqn_headers.specs.Heading.{Finds};

use crate::argument::{
    group_tag, left_argument, left_operand, lone_token, right_argument, right_operand,
};
use crate::element::Element;
use crate::error::HeadError;
use crate::queue::Queue;
use bqn_syntax::{Header, Pattern, Tag, Token};
use std::alloc::Global;

/// A header with this self part, after which these groups stand: a right argument, or nothing.
#[tactic(auto, using(crate::proofs::Forms::right_laws))]
fn with_right(
    alloc: Global,
    left_operand: Option<Token>,
    own: Token,
    right_operand: Option<Token>,
    groups: Queue<Queue<Element>>,
) -> Result<Header, HeadError>
    ensures { Finds (Headers.with_right left_operand (Some own) right_operand (groups_shown groups)) header_of result }
{
    if groups.is_empty() {
        return Ok(Header {
            left: None,
            left_operand,
            own,
            right_operand,
            right: None,
        });
    }
    let Some(group) = groups.into_only() else {
        return Err(HeadError::Bad);
    };
    let right = right_argument(alloc, group)?;
    Ok(Header {
        left: None,
        left_operand,
        own,
        right_operand,
        right: Some(right),
    })
}

/// The header whose self part is the name of a function.
fn function_form(
    alloc: Global,
    own: Queue<Element>,
    groups: Queue<Queue<Element>>,
) -> Result<Header, HeadError>
    ensures { Finds (Headers.function_form (Headers.group_tag (group_shown own)) (group_shown own) (groups_shown groups)) header_of result }
{
    match group_tag(&own) {
        Tag::Function => match lone_token(own) {
            Some(own) => with_right(alloc, None, own, None, groups),
            None => Err(HeadError::Bad),
        },
        Tag::Subject | Tag::Mod1 | Tag::Mod2 | Tag::Nothing => Err(HeadError::Bad),
    }
}

/// The header whose self part is an operand and the name of a 1-modifier.
fn mod1_form(
    alloc: Global,
    operand: Queue<Element>,
    groups: Queue<Queue<Element>>,
) -> Result<Header, HeadError>
    ensures { Finds (Forms.mod1_form (group_shown operand) (groups_shown groups)) header_of result }
{
    let mut groups = groups;
    let Some(own) = groups.pop() else {
        return Err(HeadError::Bad);
    };
    let left_operand = left_operand(operand)?;
    match lone_token(own) {
        Some(own) => with_right(alloc, Some(left_operand), own, None, groups),
        None => Err(HeadError::Bad),
    }
}

/// The header whose self part is an operand, the name of a 2-modifier and an operand.
fn mod2_form(
    alloc: Global,
    operand: Queue<Element>,
    groups: Queue<Queue<Element>>,
) -> Result<Header, HeadError>
    ensures { Finds (Forms.mod2_form (group_shown operand) (groups_shown groups)) header_of result }
{
    let mut groups = groups;
    let Some(own) = groups.pop() else {
        return Err(HeadError::Bad);
    };
    let left_operand = left_operand(operand)?;
    let Some(right) = groups.pop() else {
        return Err(HeadError::Bad);
    };
    let right_operand = right_operand(right)?;
    match lone_token(own) {
        Some(own) => with_right(alloc, Some(left_operand), own, Some(right_operand), groups),
        None => Err(HeadError::Bad),
    }
}

/// What the first group is as the name of the block's own function or modifier.
#[tactic(auto, using(crate::proofs::Forms::first_laws))]
fn first_tag(groups: &Queue<Queue<Element>>) -> Tag
    ensures { result ≡ Forms.first_tag (groups_shown groups.now) }
{
    match groups.first() {
        Some(group) => group_tag(group),
        None => Tag::Nothing,
    }
}

/// The header that begins with its self part, of which this is the first group.
#[tactic(auto, using(crate::proofs::Forms::self_laws))]
fn without_left(
    alloc: Global,
    first: Queue<Element>,
    groups: Queue<Queue<Element>>,
) -> Result<Header, HeadError>
    ensures { Finds (Headers.without_left (group_shown first ∷ groups_shown groups)) header_of result }
{
    match first_tag(&groups) {
        Tag::Mod1 => mod1_form(alloc, first, groups),
        Tag::Mod2 => mod2_form(alloc, first, groups),
        Tag::Subject | Tag::Function | Tag::Nothing => function_form(alloc, first, groups),
    }
}

/// The same header with a left argument, which stands only beside a right one.
fn put_left(left: Pattern, header: Header) -> Result<Header, HeadError>
    ensures { Finds (Headers.left_of (pattern_of left) (header_of header)) header_of result }
{
    let Header {
        left_operand,
        own,
        right_operand,
        right,
        ..
    } = header;
    match right {
        Some(right) => Ok(Header {
            left: Some(left),
            left_operand,
            own,
            right_operand,
            right: Some(right),
        }),
        None => Err(HeadError::Bad),
    }
}

/// The header that begins with its left argument.
fn with_left(
    alloc: Global,
    left: Queue<Element>,
    groups: Queue<Queue<Element>>,
) -> Result<Header, HeadError>
    ensures { Finds (Headers.with_left (group_shown left ∷ groups_shown groups)) header_of result }
{
    let mut groups = groups;
    let left = left_argument(alloc, left)?;
    let Some(first) = groups.pop() else {
        return Err(HeadError::Bad);
    };
    let header = without_left(alloc, first, groups)?;
    put_left(left, header)
}

/// Whether a group before these is a left argument, if a header stands there: there is room for a
/// self part and a right argument, and the first is not the name of a modifier.
#[tactic(auto, using(crate::proofs::Forms::first_laws))]
fn follow_left(groups: &Queue<Queue<Element>>) -> bool
    ensures { result ≡ Forms.follow_left (groups_shown groups.now) }
{
    if groups.len() < 2 {
        return false;
    }
    match first_tag(groups) {
        Tag::Mod1 | Tag::Mod2 => false,
        Tag::Subject | Tag::Function | Tag::Nothing => true,
    }
}

/// The header that groups of joined elements are.
#[tactic(auto, using(crate::proofs::Forms::form_laws))]
pub(crate) fn header_form(alloc: Global, groups: Queue<Queue<Element>>) -> Result<Header, HeadError>
    ensures { Finds (Headers.header_form (groups_shown groups)) header_of result }
{
    let mut groups = groups;
    let Some(first) = groups.pop() else {
        return Err(HeadError::Bad);
    };
    if follow_left(&groups) {
        return with_left(alloc, first, groups);
    }
    without_left(alloc, first, groups)
}
