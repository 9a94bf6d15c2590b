ghost use Rattle.std.specs.Prelude.{◌≡◌, [], ◌∷◌, None, IfOk, length, map};
ghost use Rattle.bqn_syntax.specs.scope.Bodies.{inside, resolution};
ghost use Rattle.bqn_syntax.specs.scope.Bodies as text;
ghost use Rattle.bqn_syntax.specs.grammar.Trees.{stmt_of, stmts, tree_of};
ghost use Rattle.bqn_syntax.specs.scope.Scope.{top_scope, uses_of};
ghost use Rattle.bqn_scope.specs.Numbering.{bodies_shown};
ghost use Rattle.bqn_scope.specs.Resolving.{GivesParts, GivesUses, Resolves};
ghost use Rattle.bqn_scope.specs.Shown.{events_shown, mentions_shown};

use crate::around::Around;
use crate::body_names::{BodyNames, body_names};
use crate::error::ScopeError;
use crate::mention::{Event, Mention};
use crate::mentions::mentions_of;
use crate::names::Names;
use crate::numbering::inside;
use crate::order::order_of;
use crate::spellings::Spellings;
use crate::used::Use;
use crate::walk::walk;
use bqn_base::Row;
use bqn_syntax::{Stmt, Tree};
use std::alloc::Global;

/// A tree with its bodies, which are numbered block by block in the text order of the opening
/// braces, the top body first; and the uses of names in text order.
#[derive(Drop)]
pub struct Resolved {
    pub tree: Tree,
    pub bodies: Row<BodyNames>,
    pub uses: Row<Use>,
}

/// The uses of a program with these mentions and this order.
#[tactic(auto, using(crate::proofs::Uses::use_laws))]
fn uses_of_program<'a>(
    alloc: Global,
    outer: &'a Spellings,
    mentions: &[Mention<'a>],
    order: &[Event<'a>],
) -> Result<Vec<Use>, ScopeError>
    ensures { GivesUses (uses_of (top_scope outer.now (mentions_shown mentions.now) (events_shown order.now) ∷ []) (mentions_shown mentions.now) []) result }
{
    let Ok(mut around) = Around::of_program(alloc, outer, mentions, order) else {
        return Err(ScopeError::Memory);
    };
    let mut uses = Vec::new(alloc);
    match walk(alloc, &mut around, mentions, &mut uses) {
        Ok(()) => Ok(uses),
        Err(error) => Err(error),
    }
}

/// The bodies of a program with these mentions.
fn bodies_of_program(
    alloc: Global,
    outer: &Spellings,
    mentions: &[Mention],
) -> Result<Vec<BodyNames>, ScopeError>
    ensures { IfOk result (λ bodies. bodies_shown bodies.items
        ≡ inside 0 (mentions_shown mentions.now) (text.body_names (length outer.now) (top_scope outer.now (mentions_shown mentions.now) [])
        (mentions_shown mentions.now) ∷ [])) }
{
    let Ok(parent) = u32::try_from(outer.len()) else {
        return Err(ScopeError::Memory);
    };
    let top = body_names(alloc, outer, false, parent, mentions)?;
    let mut bodies = Vec::new(alloc);
    bodies.push(top)?;
    inside(alloc, outer, 0, mentions, &mut bodies)?;
    Ok(bodies)
}

/// The bodies and the uses of a program.
#[tactic(auto, using(crate::proofs::Program::program_laws))]
fn parts_of<'a>(
    alloc: Global,
    outer: &'a Spellings,
    statements: &'a [Stmt],
) -> Result<(Vec<BodyNames>, Vec<Use>), ScopeError>
    ensures { GivesParts (resolution outer.now (stmts (map stmt_of statements.now))) result }
{
    let Ok(mentions) = mentions_of(alloc, statements) else {
        return Err(ScopeError::Memory);
    };
    let Ok(order) = order_of(alloc, None, statements) else {
        return Err(ScopeError::Memory);
    };
    let uses = match uses_of_program(alloc, outer, mentions.as_slice(), order.as_slice()) {
        Ok(uses) => uses,
        Err(error) => return Err(error),
    };
    match bodies_of_program(alloc, outer, mentions.as_slice()) {
        Ok(bodies) => Ok((bodies, uses)),
        Err(_) => Err(ScopeError::Memory),
    }
}

/// The bodies of a tree after these names, and the use of each name; or the tree's first refusal
/// in text order: Undeclared, Early, Redefined or UnknownSystem.
pub fn resolve(alloc: Global, tree: Tree, outer: &Names) -> Result<Resolved, ScopeError>
    ensures { Resolves (resolution outer.now (tree_of tree)) tree result }
{
    match parts_of(alloc, outer.spellings(), tree.statements.list()) {
        Ok((bodies, uses)) => Ok(Resolved {
            tree,
            bodies: Row::new(bodies),
            uses: Row::new(uses),
        }),
        Err(error) => Err(error),
    }
}
