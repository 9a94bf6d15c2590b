//! How many uses and patterns a token, a pattern or an argument of a header has.

ghost use Rattle.std.specs.Prelude.{◌≡◌, IfOk, map};
ghost use Rattle.std.specs.Option.{option_map};
ghost use Rattle.bqn_syntax.specs.grammar.Trees.{pattern_of, patterns as plain_patterns};
ghost use Rattle.bqn_compile.specs.Counting.{in_token, in_leaves, in_all_leaves, in_pattern, in_target, in_argument};

use crate::count::{Count, nothing, one_pattern, one_use, past};
use bqn_base::Memory;
use bqn_syntax::{Kind, Pattern, Token};

pub fn token(t: &Token) -> Count
    ensures { result ≡ in_token t.now }
{
    match t.kind {
        Kind::Word(_, _) => one_use(),
        _ => nothing(),
    }
}

#[cycle(pattern)]
#[tactic(auto, using(bqn_syntax::specs::grammar::TreeEquations::tree_equations, crate::proofs::Counts::count_laws))]
pub fn leaves(q: &Pattern) -> Result<Count, Memory>
    ensures { IfOk result (λ c. c ≡ in_leaves (pattern_of q.now)) }
{
    match q {
        Pattern::Name(t) => Ok(token(t)),
        Pattern::Skip(_) | Pattern::Literal(_) => Ok(nothing()),
        Pattern::List(all) => all_leaves(all.list()),
        Pattern::Strand(all) => all_leaves(all.list()),
    }
}

#[cycle(pattern)]
#[tactic(auto, using(bqn_syntax::specs::grammar::TreeEquations::tree_equations, crate::proofs::Counts::count_laws))]
fn all_leaves(all: &[Pattern]) -> Result<Count, Memory>
    ensures { IfOk result (λ c. c ≡ in_all_leaves (plain_patterns (map pattern_of all.now))) }
{
    let mut so = nothing();
    for q in all {
        so = past(so, leaves(q)?)?;
    }
    Ok(so)
}

#[tactic(auto, using(bqn_syntax::specs::grammar::TreeEquations::tree_equations, crate::proofs::Counts::count_laws))]
fn pattern(q: &Pattern) -> Result<Count, Memory>
    ensures { IfOk result (λ c. c ≡ in_pattern (pattern_of q.now)) }
{
    past(one_pattern(), leaves(q)?)
}

/// The target of an arrow.
#[tactic(auto, using(bqn_syntax::specs::grammar::TreeEquations::tree_equations, crate::proofs::Counts::count_laws))]
pub fn target(q: &Pattern) -> Result<Count, Memory>
    ensures { IfOk result (λ c. c ≡ in_target (pattern_of q.now)) }
{
    match q {
        Pattern::Name(t) => Ok(token(t)),
        Pattern::Skip(_) | Pattern::Literal(_) => pattern(q),
        Pattern::List(_) | Pattern::Strand(_) => pattern(q),
    }
}

/// An argument of a header.
#[tactic(auto, using(bqn_syntax::specs::grammar::TreeEquations::tree_equations, crate::proofs::Counts::count_laws))]
pub fn argument(q: &Option<Pattern>) -> Result<Count, Memory>
    ensures { IfOk result (λ c. c ≡ in_argument (option_map pattern_of q.now)) }
{
    let Some(q) = q else {
        return Ok(nothing());
    };
    match q {
        Pattern::Name(t) => match t.kind {
            Kind::Special(_, _) => Ok(nothing()),
            _ => past(one_pattern(), token(t)),
        },
        Pattern::Skip(_) | Pattern::Literal(_) => pattern(q),
        Pattern::List(_) | Pattern::Strand(_) => pattern(q),
    }
}
