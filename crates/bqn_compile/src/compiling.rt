ghost use Rattle.std.specs.Prelude.{◌≡◌, IfOk};
ghost use Rattle.bqn_syntax.specs.grammar.Trees.{tree_of};
ghost use Rattle.bqn_code.specs.Plain.{code_of};
ghost use Rattle.bqn_compile.specs.Laws.{HasFew, IsVerified};
ghost use Rattle.bqn_compile.specs.Shown.{CompilesTo, constants_shown, key_shown, resolution_shown};
ghost use Rattle.bqn_compile.specs.Translation.{translated};

use crate::blocks::program_blocks;
use crate::error::CompileError;
use crate::gathering;
use crate::key::Key;
use crate::pools::Pools;
use bqn_base::{Memory, Row, Text};
use bqn_code::{Code, Const};
use bqn_scope::Resolved;
use std::alloc::Global;

/// The constant that a key stands for.
fn constant(alloc: Global, key: &Key) -> Result<Const, Memory>
    ensures { IfOk result (λ c. c ≡ key_shown key.now) }
{
    match key {
        Key::Number(number) => Ok(Const::Number(*number)),
        Key::Char(c) => Ok(Const::Char(*c)),
        Key::Text(text) => Ok(Const::Text(Text::new(alloc, text.as_slice())?)),
    }
}

fn constants(alloc: Global, keys: &[Key]) -> Result<Row<Const>, Memory>
    ensures { IfOk result (λ all. all ≡ constants_shown keys.now) }
{
    let mut all = Vec::new(alloc);
    for key in keys {
        let Ok(()) = all.push(constant(alloc, key)?) else {
            return Err(Memory);
        };
    }
    Ok(Row::new(all))
}

fn translated_code(alloc: Global, resolved: &Resolved) -> Result<Code, CompileError>
    ensures { CompilesTo (translated (resolution_shown resolved.now) (tree_of resolved.now.tree)) result }
{
    let uses = resolved.uses.list();
    let statements = resolved.tree.statements.list();
    let mut pools = Pools::new(alloc);
    gathering::stmts(&mut pools, uses, statements)?;
    let blocks = program_blocks(uses, &pools, resolved.bodies.list(), statements)?;
    let constants = constants(alloc, pools.constants.as_slice())?;
    let mut names = Vec::new(alloc);
    pools.names.append_to(&mut names)?;
    let Pools { patterns, .. } = pools;
    Ok(Code {
        placed: true,
        names: Row::new(names),
        constants,
        patterns: Row::new(patterns),
        blocks,
    })
}

/// The code of a tree whose names are resolved, or TooMany at the first token that is the brace of
/// block 65,536, defines a name 65,536 of its body, or is a constant 65,536. The code of a tree that
/// comes from a source is verified.
pub fn compile(alloc: Global, resolved: &Resolved) -> Result<Code, CompileError>
    ensures exact { CompilesTo (translated (resolution_shown resolved.now) (tree_of resolved.now.tree)) result }
    ensures verified { IfOk result (λ code. IsVerified (tree_of resolved.now.tree) (resolution_shown resolved.now) (code_of code)) }
    ensures few { IfOk result (λ code. HasFew (tree_of resolved.now.tree) (code_of code)) }
{
    translated_code(alloc, resolved)
}
