//! What the parts of an expression are made one by.

ghost use Rattle.std.specs.Prelude.{◌≡◌, IfOk, OnOk, map};
ghost use Rattle.bqn_syntax.specs.grammar.Trees.{use_of, uses as plain_uses};
ghost use Rattle.bqn_syntax.specs.scope.Scope.{name_of};
ghost use Rattle.bqn_code.specs.declared.instr.Instr.TheVariants as instr;
ghost use Rattle.bqn_compile.specs.Expressions.{atop_code, derive_instr, derives, fields_code, fork_code};
ghost use Rattle.bqn_compile.specs.Pools.{name_number};
ghost use Rattle.bqn_compile.specs.Walking.{pushes, setting_of, walked};

use crate::pooling::spelling;
use crate::pools::name_at;
use crate::read::Read;
use crate::walk::{Known, Walk, push};
use bqn_base::Memory;
use bqn_code::Instr;
use bqn_syntax::{ModUse, Token};

#[tactic(auto, using(crate::proofs::Walks::push_laws), unfolding(crate::specs::Walking::setting_of))]
fn field(known: &Known, name: &Token) -> Result<Instr, Memory>
    ensures { IfOk result (λ i. i ≡ instr.Field (name_number (setting_of known.now).names (name_of name.now))) }
{
    match u32::try_from(name_at(&known.pools.names, spelling(name))) {
        Ok(number) => Ok(Instr::Field(number)),
        Err(_) => Err(Memory),
    }
}

/// The names behind a namespace, the last of which is looked up last.
#[tactic(auto, using(crate::proofs::Walks::push_laws))]
pub fn fields(known: &Known, all: &[Token], out: &mut Walk) -> Result<(), Memory>
    ensures { OnOk result (walked out.new ≡ pushes (fields_code (setting_of known.now).names all.now) (walked out.old)) }
{
    for name in all.iter().rev() {
        let i = field(known, name)?;
        push(out, i)?;
    }
    Ok(())
}

#[tactic(auto, using(bqn_syntax::specs::grammar::TreeEquations::tree_equations))]
fn derived_instr(u: &ModUse) -> Instr
    ensures { result ≡ derive_instr (use_of u.now) }
{
    match u {
        ModUse::One(_) => Instr::Derive1,
        ModUse::Two(_, _) => Instr::Derive2,
    }
}

/// What the modifiers behind a part make, once all parts are there.
#[tactic(auto, using(bqn_syntax::specs::grammar::TreeEquations::tree_equations, crate::proofs::Walks::push_laws))]
pub fn derive(all: &[ModUse], out: &mut Walk) -> Result<(), Memory>
    ensures { OnOk result (walked out.new ≡ pushes (derives (plain_uses (map use_of all.now))) (walked out.old)) }
{
    for u in all.iter().rev() {
        push(out, derived_instr(u))?;
    }
    Ok(())
}

/// Behind one more part, that part and two others are made one.
#[tactic(auto, using(crate::proofs::Walks::push_laws))]
pub fn fork(read: Read, out: &mut Walk) -> Result<(), Memory>
    ensures { OnOk result (walked out.new ≡ pushes (fork_code read) (walked out.old)) }
{
    match read {
        Read::Two => push(out, Instr::Train3)?,
        Read::No | Read::One => {}
    }
    Ok(())
}

#[tactic(auto, using(crate::proofs::Walks::push_laws))]
pub fn atop(read: Read, out: &mut Walk) -> Result<(), Memory>
    ensures { OnOk result (walked out.new ≡ pushes (atop_code read) (walked out.old)) }
{
    match read {
        Read::Two => push(out, Instr::Train2)?,
        Read::No | Read::One => {}
    }
    Ok(())
}
