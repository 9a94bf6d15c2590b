//! The blocks of a program, in the text order of their opening braces.

ghost use Rattle.std.specs.Prelude.{◌≡◌, ◌∷◌, IfOk, map};
ghost use Rattle.bqn_syntax.specs.grammar.Trees.{stmt_of, stmts as plain_stmts};
ghost use Rattle.bqn_scope.specs.Numbering.{body_shown};
ghost use Rattle.bqn_compile.specs.Blocks.{stmts_blocks};
ghost use Rattle.bqn_compile.specs.Translation.{at_start, program};
ghost use Rattle.bqn_compile.specs.Shown.{setting_shown};

use crate::count::Count;
use crate::emitting::body;
use crate::places::{fill, reserve};
use crate::pools::Pools;
use crate::walk::{Known, Walk};
use bqn_base::{Memory, Row};
use bqn_code::Block;
use bqn_scope::{BodyNames, Use};
use bqn_syntax::{Class, Stmt};

/// The program and its body come before everything else.
fn start() -> Count
    ensures { result ≡ at_start }
{
    Count {
        uses: 0,
        blocks: 1,
        bodies: 1,
        patterns: 0,
    }
}

/// All blocks of a program with these statements, the program's first.
pub fn program_blocks(
    uses: &[Use],
    pools: &Pools,
    names: &[BodyNames],
    statements: &[Stmt],
) -> Result<Row<Block>, Memory>
    ensures { IfOk result (λ r. r ≡ program (setting_shown uses.now pools.now) (map body_shown names.now) (plain_stmts (map stmt_of statements.now))
        ∷ stmts_blocks (setting_shown uses.now pools.now) (map body_shown names.now) 0 (plain_stmts (map stmt_of statements.now)) at_start) }
{
    let known = Known { uses, pools, names };
    let mut out = Walk {
        at: start(),
        code: Vec::new(pools.alloc),
        blocks: Vec::new(pools.alloc),
    };
    let place = reserve(&known, Class::Immediate, 0, &mut out)?;
    let own = body(&known, 0, 0, &None, statements, &mut out)?;
    let mut bodies = Vec::new(pools.alloc);
    bodies.push(own)?;
    fill(&mut out, place, Row::new(bodies));
    let Walk { blocks, .. } = out;
    Ok(Row::new(blocks))
}
