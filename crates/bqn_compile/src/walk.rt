//! A walk through the text of a program, and what it makes of single tokens.

ghost use Rattle.std.specs.Prelude.{◌≡◌, [], ◌∷◌, IfOk, OnOk, length as list_length};
ghost use Rattle.bqn_syntax.specs.grammar.Trees.{pattern_of};
ghost use Rattle.bqn_compile.specs.Walking.{append, drop_code, ending, load_at, onward, push as pushed, setting_of, skip as skipped, store_at, target_walk, targets_walk, token_walk, turned, walked};

use crate::count::{Count, past};
use crate::counting;
use crate::leaf::{leaf, load, seen, store};
use crate::pools::Pools;
use bqn_base::Memory;
use bqn_code::{Block, Instr};
use bqn_scope::{BodyNames, Use};
use bqn_syntax::{Arrow, Pattern, Token};

/// What is known of a program besides its tree: what its names refer to, the pools, and the names
/// of its bodies.
#[derive(Clone, Copy)]
pub struct Known<'a> {
    pub uses: &'a [Use],
    pub pools: &'a Pools,
    pub names: &'a [BodyNames],
}

/// What comes before in the text, the code so far and the blocks so far. Within an expression the
/// code is pushed backward, since what stands further right is evaluated first.
#[derive(Drop)]
pub struct Walk {
    pub at: Count,
    pub code: Vec<Instr>,
    pub blocks: Vec<Block>,
}

/// Goes past so much of the text.
#[tactic(auto, using(crate::proofs::Walks::push_laws), unfolding(crate::specs::Walking::walked, crate::specs::Walking::onward, crate::specs::Walking::skip))]
pub fn skip(out: &mut Walk, so: Count) -> Result<(), Memory>
    ensures walked { OnOk result (walked out.new ≡ skipped so (walked out.old)) }
    ensures onward { OnOk result (onward out.new ≡ skipped so (onward out.old)) }
{
    out.at = past(out.at, so)?;
    Ok(())
}

/// Pushes an instruction: the one before those pushed so far within an expression, and behind them
/// elsewhere.
#[tactic(auto, using(crate::proofs::Walks::push_laws), unfolding(crate::specs::Walking::walked, crate::specs::Walking::onward, crate::specs::Walking::push, crate::specs::Walking::append))]
pub fn push(out: &mut Walk, i: Instr) -> Result<(), Memory>
    ensures walked { OnOk result (walked out.new ≡ pushed i (walked out.old)) }
    ensures onward { OnOk result (onward out.new ≡ append (i ∷ []) (onward out.old)) }
{
    out.code.push(i)?;
    Ok(())
}

/// Turns round what is pushed behind so many instructions.
#[tactic(auto, using(crate::proofs::Walks::push_laws), unfolding(crate::specs::Walking::onward, crate::specs::Walking::turned))]
pub fn turn(out: &mut Walk, from: usize)
    ensures { onward out.new ≡ turned from (onward out.old) }
{
    if from < out.code.len() {
        out.code[from..].reverse();
    }
}

/// The value that a statement has left is dropped before the next one.
#[tactic(auto, using(crate::proofs::Walks::push_laws))]
pub fn drop_value(left: bool, out: &mut Walk) -> Result<(), Memory>
    ensures { OnOk result (onward out.new ≡ append (drop_code left) (onward out.old)) }
{
    if left { push(out, Instr::Pop) } else { Ok(()) }
}

/// What ends a body behind its last statement, which has left a value or has not.
#[tactic(auto, using(crate::proofs::Walks::push_laws))]
pub fn end(exports: bool, left: bool, out: &mut Walk) -> Result<(), Memory>
    ensures { OnOk result (onward out.new ≡ append (ending left exports) (onward out.old)) }
{
    if exports {
        drop_value(left, out)?;
        return push(out, Instr::Space);
    }
    if !left {
        push(out, Instr::Nothing)?;
    }
    push(out, Instr::Return)
}

/// How many elements a list has.
pub fn length<T>(all: &[T]) -> Result<u32, Memory>
    ensures { IfOk result (λ n. n ≡ list_length all.now) }
{
    match u32::try_from(all.len()) {
        Ok(n) => Ok(n),
        Err(_) => Err(Memory),
    }
}

/// Reads the variable whose use comes next.
#[tactic(auto, using(crate::proofs::Walks::push_laws), unfolding(crate::specs::Walking::setting_of, crate::specs::Walking::load_at))]
pub fn load_here(known: &Known, out: &Walk) -> Result<Instr, Memory>
    ensures { IfOk result (λ i. i ≡ load_at (setting_of known.now) (walked out.now)) }
{
    match seen(known.uses, out.at.uses) {
        Ok(at) => Ok(load(at)),
        Err(e) => Err(e),
    }
}

/// Stores into the variable whose use comes next.
#[tactic(auto, using(crate::proofs::Walks::push_laws), unfolding(crate::specs::Walking::setting_of, crate::specs::Walking::store_at))]
pub fn store_here(known: &Known, arrow: Arrow, out: &Walk) -> Result<Instr, Memory>
    ensures { IfOk result (λ i. i ≡ store_at (setting_of known.now) arrow (walked out.now)) }
{
    match seen(known.uses, out.at.uses) {
        Ok(at) => Ok(store(arrow, at)),
        Err(e) => Err(e),
    }
}

/// A name, a literal or a primitive by itself.
#[tactic(auto, using(crate::proofs::Walks::push_laws), unfolding(crate::specs::Walking::setting_of, crate::specs::Walking::token_walk))]
pub fn token(known: &Known, t: &Token, out: &mut Walk) -> Result<(), Memory>
    ensures { OnOk result (walked out.new ≡ token_walk (setting_of known.now) t.now (walked out.old)) }
{
    let i = leaf(known.uses, known.pools, out.at.uses, &t.kind)?;
    push(out, i)?;
    skip(out, counting::token(t))
}

/// The target of an arrow.
#[tactic(auto, using(bqn_syntax::specs::grammar::TreeEquations::tree_equations, crate::proofs::Walks::push_laws), unfolding(crate::specs::Walking::setting_of, crate::specs::Walking::target_walk, crate::specs::Walking::store_at))]
pub fn target(known: &Known, q: &Pattern, arrow: Arrow, out: &mut Walk) -> Result<(), Memory>
    ensures { OnOk result (walked out.new ≡ target_walk (setting_of known.now) (pattern_of q.now) arrow (walked out.old)) }
{
    let i = match q {
        Pattern::Name(_) => store_here(known, arrow, out)?,
        Pattern::Skip(_) | Pattern::Literal(_) => Instr::Bind(out.at.patterns),
        Pattern::List(_) | Pattern::Strand(_) => Instr::Bind(out.at.patterns),
    };
    push(out, i)?;
    skip(out, counting::target(q)?)
}

/// The targets of a train or a modifier, the rightmost of which is stored first.
#[tactic(auto, using(crate::proofs::Walks::push_laws))]
pub fn targets(known: &Known, all: &[(Token, Arrow)], out: &mut Walk) -> Result<(), Memory>
    ensures { OnOk result (walked out.new ≡ targets_walk (setting_of known.now) all.now (walked out.old)) }
{
    for t in all {
        let i = store_here(known, t.1, out)?;
        push(out, i)?;
        skip(out, counting::token(&t.0))?;
    }
    Ok(())
}
