//! The code of the header of a body.

ghost use Rattle.std.specs.Prelude.{◌≡◌, OnOk};
ghost use Rattle.std.specs.Option.{option_map};
ghost use Rattle.bqn_syntax.specs.grammar.Trees.{header_of, pattern_of};
ghost use Rattle.bqn_compile.specs.Bodies.{argument_code, name_code, own_instr as own_in};
ghost use Rattle.bqn_compile.specs.Pools.{seen_at};
ghost use Rattle.bqn_compile.specs.Walking.{append, argument_behind, asks, header_behind, name_behind, onward, operand_behind, setting_of};

use crate::counting;
use crate::leaf::seen;
use crate::walk::{Known, Walk, push, skip};
use bqn_base::{Memory, Role};
use bqn_code::Instr;
use bqn_syntax::{Header, Kind, Pattern, Token};

/// Whether an argument asks for something.
fn asks_for(q: &Pattern) -> bool
    ensures { result ≡ asks (pattern_of q.now) }
{
    match q {
        Pattern::Name(t) => match t.kind {
            Kind::Special(_, _) => false,
            _ => true,
        },
        Pattern::Skip(_) | Pattern::Literal(_) => true,
        Pattern::List(_) | Pattern::Strand(_) => true,
    }
}

/// Pushes an argument and matches it by the pattern with this number.
#[tactic(auto, using(bqn_syntax::specs::grammar::TreeEquations::tree_equations, crate::proofs::Headers::header_laws))]
fn matched(i: Instr, number: u32, q: &Option<Pattern>, out: &mut Walk) -> Result<(), Memory>
    ensures { OnOk result (onward out.new ≡ append (argument_code i number (option_map pattern_of q.now)) (onward out.old)) }
{
    let Some(x) = q else {
        return Ok(());
    };
    if !asks_for(x) {
        return Ok(());
    }
    push(out, i)?;
    push(out, Instr::Match(number))
}

#[tactic(auto, using(crate::proofs::Headers::header_laws), unfolding(crate::specs::Walking::argument_behind))]
fn argument(i: Instr, q: &Option<Pattern>, out: &mut Walk) -> Result<(), Memory>
    ensures { OnOk result (onward out.new ≡ argument_behind i (option_map pattern_of q.now) (onward out.old)) }
{
    matched(i, out.at.patterns, q, out)?;
    skip(out, counting::argument(q)?)
}

/// Defines a name that a header has for a special name.
#[tactic(auto, using(crate::proofs::Headers::header_laws), unfolding(crate::specs::Walking::setting_of))]
fn named(known: &Known, i: Instr, t: &Token, out: &mut Walk) -> Result<(), Memory>
    ensures { OnOk result (onward out.new ≡ append (name_code i (seen_at (setting_of known.now).uses (onward out.old).at.uses) t.now.kind) (onward out.old)) }
{
    let Kind::Word(_, _) = t.kind else {
        return Ok(());
    };
    let at = seen(known.uses, out.at.uses)?;
    push(out, i)?;
    push(out, Instr::Define { slot: at.slot })?;
    push(out, Instr::Pop)
}

#[tactic(auto, using(crate::proofs::Headers::header_laws), unfolding(crate::specs::Walking::name_behind))]
fn name(known: &Known, i: Instr, t: &Token, out: &mut Walk) -> Result<(), Memory>
    ensures { OnOk result (onward out.new ≡ name_behind (setting_of known.now) i t.now (onward out.old)) }
{
    named(known, i, t, out)?;
    skip(out, counting::token(t))
}

#[tactic(auto, using(crate::proofs::Headers::header_laws))]
fn operand(known: &Known, i: Instr, t: &Option<Token>, out: &mut Walk) -> Result<(), Memory>
    ensures { OnOk result (onward out.new ≡ operand_behind (setting_of known.now) i t.now (onward out.old)) }
{
    match t {
        None => Ok(()),
        Some(t) => name(known, i, t, out),
    }
}

/// What pushes the value of a block's own name.
fn own_instr(kind: &Kind) -> Instr
    ensures { result ≡ own_in kind.now }
{
    match kind {
        Kind::Word(_, Role::Mod1) | Kind::Word(_, Role::Mod2) => Instr::Modifier,
        _ => Instr::Own,
    }
}

#[tactic(auto, using(crate::proofs::Headers::header_laws))]
pub fn header(known: &Known, h: &Option<Header>, out: &mut Walk) -> Result<(), Memory>
    ensures { OnOk result (onward out.new ≡ header_behind (setting_of known.now) (option_map header_of h.now) (onward out.old)) }
{
    let Some(h) = h else {
        return Ok(());
    };
    argument(Instr::Left, &h.left, out)?;
    operand(known, Instr::LeftOperand, &h.left_operand, out)?;
    name(known, own_instr(&h.own.kind), &h.own, out)?;
    operand(known, Instr::RightOperand, &h.right_operand, out)?;
    argument(Instr::Right, &h.right, out)
}
