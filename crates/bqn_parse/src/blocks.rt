ghost use Rattle.std.specs.Prelude.{◌≡◌, map, IfOk, Ok};
ghost use Rattle.bqn_syntax.specs.grammar.Classes as classes;
ghost use Rattle.bqn_syntax.specs.grammar.Parsing as parsing;
ghost use Rattle.bqn_syntax.specs.grammar.Trees.{body_of, bodies, header_of};
ghost use Rattle.bqn_headers.specs.Heading.{marks_shown};
ghost use Rattle.bqn_parse.specs.Marking.{brief, brief_header};
ghost use Rattle.bqn_parse.specs.Views.{element_of};
ghost use Rattle.bqn_parse.specs.Walking.{Made};

use crate::draft::{Draft, boxed};
use crate::error::ParseError;
use crate::item::Element;
use crate::marks::{has_predicate, seen_in_stmts, since_predicate};
use bqn_base::{Memory, Place, Refusal, Row};
use bqn_headers::{BodyMarks, block_class};
use bqn_syntax::{BlockTree, BodyTree, Class, Header, Pattern};
use std::alloc::Global;

/// A header that tells as much of the class of its block: its own name, and whether it has an
/// argument.
#[tactic(auto, using(bqn_syntax::specs::grammar::TreeEquations::tree_equations))]
fn brief_header(header: &Header) -> Result<Header, Memory>
    ensures { IfOk result (λ h. header_of h ≡ brief_header (header_of header.now)) }
{
    let own = header.own.copy()?;
    let right = match header.right {
        None => None,
        Some(_) => Some(Pattern::Skip(header.own.place)),
    };
    Ok(Header {
        left: None,
        left_operand: None,
        own,
        right_operand: None,
        right,
    })
}

/// What the class of a block asks of a body.
#[tactic(auto, using(bqn_syntax::specs::grammar::TreeEquations::tree_equations))]
fn marks(body: &BodyTree) -> Result<BodyMarks, Memory>
    ensures { IfOk result (λ m. marks_shown m ≡ brief (classes.marks_of (body_of body.now))) }
{
    let header = match &body.header {
        None => None,
        Some(header) => Some(brief_header(header)?),
    };
    let statements = body.statements.list();
    let seen = seen_in_stmts(statements);
    Ok(BodyMarks {
        header,
        predicate: has_predicate(statements),
        statements: since_predicate(statements),
        args: seen.args,
        one: seen.one,
        one_self: seen.one_self,
        two: seen.two,
    })
}

/// What the class of a block asks of its bodies.
#[tactic(auto, using(crate::proofs::Briefs::all_marks_laws))]
fn all_marks(alloc: Global, all: &[BodyTree]) -> Result<Vec<BodyMarks>, ParseError>
    ensures { Made (Ok (map brief (classes.marks_in (bodies (map body_of all.now))))) (λ ms. map marks_shown ms.items) result }
{
    let mut so = Vec::with_capacity(alloc, all.len())?;
    for body in all {
        so.push(marks(body)?)?;
    }
    Ok(so)
}

/// The class of a block with these bodies, or none where they break a rule.
fn class_of(alloc: Global, all: &[BodyTree]) -> Result<Option<Class>, ParseError>
    ensures { Made (Ok (classes.class_of (classes.marks_in (bodies (map body_of all.now))))) (λ class. class) result }
{
    let marks = all_marks(alloc, all)?;
    Ok(block_class(&marks))
}

/// The block of these bodies that opens at a place.
///
/// # Errors
///
/// `BadBlock` where the bodies break a rule, and out of memory.
#[tactic(auto, using(bqn_syntax::specs::grammar::TreeEquations::tree_equations))]
pub fn block<'t>(alloc: Global, place: Place, all: Vec<BodyTree>) -> Result<Element<'t>, ParseError>
    ensures { Made (parsing.block_part place (bodies (map body_of all.items))
        (classes.class_of (classes.marks_in (bodies (map body_of all.items))))) element_of result }
{
    match class_of(alloc, &all)? {
        None => Err(ParseError::Refused(Refusal::BadBlock(place))),
        Some(class) => {
            let block = BlockTree {
                place,
                class,
                bodies: Row::new(all),
            };
            Ok(Element::Part(Draft::Block(boxed(alloc, block)?)))
        }
    }
}
