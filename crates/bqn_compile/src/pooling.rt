//! What one token adds to the pools.

ghost use Rattle.std.specs.Prelude.{◌≡◌, IsTrue, map};
ghost use Rattle.std.specs.List.{list_all};
ghost use Rattle.bqn_base.specs.Names.{is_name_character};
ghost use Rattle.bqn_syntax.specs.scope.Order.{by_arrow};
ghost use Rattle.bqn_syntax.specs.grammar.Trees.{pattern_of, patterns as plain_patterns};
ghost use Rattle.bqn_syntax.specs.scope.Scope.{defines as defines_in, name_of as name_in};
ghost use Rattle.bqn_scope.specs.Scopes.{use_shown};
ghost use Rattle.bqn_compile.specs.Pools.{constant_of};
ghost use Rattle.bqn_compile.specs.Gathering as gather;
ghost use Rattle.bqn_compile.specs.Shown.{GathersTo, gathered_shown};

use crate::error::CompileError;
use crate::key::Key;
use crate::pools::{Pools, place_of_constant};
use bqn_base::{Place, Refusal};
use bqn_scope::Use;
use bqn_syntax::{Arrow, Kind, Pattern, Token};

/// The most constants, names of a body, and blocks beside the program.
const MOST: u32 = 65535;

pub fn defines(arrow: Arrow) -> bool
    ensures { result ≡ defines_in (by_arrow arrow) }
{
    match arrow {
        Arrow::Define | Arrow::Export => true,
        Arrow::Change => false,
    }
}

/// A name that refers to a variable; where it defines it, it may be one too many.
pub fn refers(
    pools: &mut Pools,
    uses: &[Use],
    defining: bool,
    place: Place,
) -> Result<(), CompileError>
    ensures { GathersTo result (gathered_shown pools.new) (gather.refers gather.the_most (map use_shown uses.now) defining place (gathered_shown pools.old)) }
{
    let slot = match uses.get(pools.uses as usize) {
        Some(found) => found.slot,
        None => 0,
    };
    if defining && slot >= MOST {
        return Err(CompileError::Refused(Refusal::TooMany(place)));
    }
    let Some(next) = pools.uses.checked_add(1) else {
        return Err(CompileError::Memory);
    };
    pools.uses = next;
    Ok(())
}

/// The brace of a block.
pub fn opens(pools: &mut Pools, place: Place) -> Result<(), CompileError>
    ensures { GathersTo result (gathered_shown pools.new) (gather.opens gather.the_most place (gathered_shown pools.old)) }
{
    if pools.blocks > MOST {
        return Err(CompileError::Refused(Refusal::TooMany(place)));
    }
    let Some(next) = pools.blocks.checked_add(1) else {
        return Err(CompileError::Memory);
    };
    pools.blocks = next;
    Ok(())
}

/// A name goes to the pool, unless it is there.
pub fn name(pools: &mut Pools, spelling: &[char]) -> Result<(), CompileError>
    requires { IsTrue (list_all is_name_character spelling.now) }
    ensures { GathersTo result (gathered_shown pools.new) (gather.pooled spelling.now (gathered_shown pools.old)) }
{
    if pools.names.contains(spelling) {
        return Ok(());
    }
    pools.names.push(spelling)?;
    Ok(())
}

/// The constant of a literal goes to the pool, unless it is there.
pub fn constant(pools: &mut Pools, kind: &Kind, place: Place) -> Result<(), CompileError>
    ensures { GathersTo result (gathered_shown pools.new) (gather.constant gather.the_most (constant_of kind.now) place (gathered_shown pools.old)) }
{
    let Ok(found) = Key::of(pools.alloc, kind) else {
        return Err(CompileError::Memory);
    };
    let Some(key) = found else {
        return Ok(());
    };
    if place_of_constant(&pools.constants, &key).is_some() {
        return Ok(());
    }
    if pools.constants.len() >= MOST as usize {
        return Err(CompileError::Refused(Refusal::TooMany(place)));
    }
    pools.constants.insert_full(key)?;
    Ok(())
}

/// The name that a token spells.
pub fn spelling(t: &Token) -> &[char]
    ensures value { result.now ≡ name_in t.now }
    ensures alphabet { IsTrue (list_all is_name_character result.now) }
{
    match &t.kind {
        Kind::Word(name, _) | Kind::System(name, _) => name.chars(),
        _ => [].as_slice(),
    }
}

/// The names of a field.
pub fn fields(pools: &mut Pools, names: &[Token]) -> Result<(), CompileError>
    ensures { GathersTo result (gathered_shown pools.new) (gather.fields names.now (gathered_shown pools.old)) }
{
    for t in names {
        name(pools, spelling(t))?;
    }
    Ok(())
}

/// The names that are exported without a value.
#[cycle(exported)]
#[tactic(auto, using(bqn_syntax::specs::grammar::TreeEquations::tree_equations))]
pub fn exported(pools: &mut Pools, q: &Pattern) -> Result<(), CompileError>
    ensures { GathersTo result (gathered_shown pools.new) (gather.exported (pattern_of q.now) (gathered_shown pools.old)) }
{
    match q {
        Pattern::Name(t) => name(pools, spelling(t)),
        Pattern::Skip(_) | Pattern::Literal(_) => Ok(()),
        Pattern::List(all) => all_exported(pools, all.list()),
        Pattern::Strand(all) => all_exported(pools, all.list()),
    }
}

#[cycle(exported)]
#[tactic(auto, using(bqn_syntax::specs::grammar::TreeEquations::tree_equations))]
fn all_exported(pools: &mut Pools, all: &[Pattern]) -> Result<(), CompileError>
    ensures { GathersTo result (gathered_shown pools.new) (gather.all_exported (plain_patterns (map pattern_of all.now)) (gathered_shown pools.old)) }
{
    for q in all {
        exported(pools, q)?;
    }
    Ok(())
}
