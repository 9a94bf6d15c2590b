//! The calls for which the bodies of a block are meant.

ghost use Rattle.std.specs.Prelude.{◌≡◌, IfOk, map};
ghost use Rattle.std.specs.Option.{option_map};
ghost use Rattle.bqn_syntax.specs.blocks.Blocks.{and_plain as and_plain_in, plain_in};
ghost use Rattle.bqn_syntax.specs.grammar.Classes.{body_calls, has_predicate as has_predicate_in, is_predicate as is_predicate_in, is_plain as is_plain_in, marks_of};
ghost use Rattle.bqn_syntax.specs.grammar.Trees.{body_of, bodies as plain_bodies, header_of, stmt_of, stmts as plain_stmts};
ghost use Rattle.bqn_compile.specs.Bodies.{kind_code};

use bqn_base::Memory;
use bqn_syntax::{BodyTree, Header, Stmt};

fn is_predicate(s: &Stmt) -> bool
    ensures { result ≡ is_predicate_in (stmt_of s.now) }
{
    match s {
        Stmt::Predicate(_) => true,
        Stmt::Eval(_) | Stmt::Export(_) => false,
    }
}

pub fn has_predicate(all: &[Stmt]) -> bool
    ensures { result ≡ has_predicate_in (plain_stmts (map stmt_of all.now)) }
{
    for s in all {
        if is_predicate(s) {
            return true;
        }
    }
    false
}

/// Whether a body has neither a header nor a predicate.
fn is_plain(b: &BodyTree) -> bool
    ensures { result ≡ is_plain_in (marks_of (body_of b.now)) }
{
    match b.header {
        None => !has_predicate(b.statements.list()),
        Some(_) => false,
    }
}

/// With one more body, how many are plain.
pub fn and_plain(b: &BodyTree, many: u32) -> Result<u32, Memory>
    ensures { IfOk result (λ n. n ≡ and_plain_in (body_of b.now) many) }
{
    if !is_plain(b) {
        return Ok(many);
    }
    match many.checked_add(1) {
        Some(more) => Ok(more),
        None => Err(Memory),
    }
}

/// How many bodies are plain.
pub fn plain_among(all: &[BodyTree]) -> Result<u32, Memory>
    ensures { IfOk result (λ n. n ≡ plain_in (plain_bodies (map body_of all.now))) }
{
    let mut many: u32 = 0;
    for b in all.iter().rev() {
        many = and_plain(b, many)?;
    }
    Ok(many)
}

/// The calls for which a body is meant, behind `before` of the `plain` bodies of its block.
pub fn kind(plain: u32, before: u32, h: &Option<Header>, predicate: bool) -> u8
    ensures { result ≡ kind_code (body_calls plain before (option_map header_of h.now) predicate) }
{
    match h {
        Some(h) => match (&h.left, &h.right) {
            (_, None) => 0,
            (None, Some(_)) => 1,
            (Some(_), Some(_)) => 2,
        },
        None if predicate => 0,
        None if plain <= 1 => 0,
        None if before >= 1 => 2,
        None => 1,
    }
}
