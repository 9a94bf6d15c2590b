//! What is asked of patterns.

ghost use Rattle.std.specs.Prelude.{◌≡◌, map, nat_le};
ghost use Rattle.std.specs.List.{All};
ghost use Rattle.bqn_code.specs.Conditions.{all_leaves, all_lists_are_few, all_nesting, is_no_literal, leaves, lists_are_few as has_few, nesting};
ghost use Rattle.bqn_code.specs.Plain.{code_of, pattern_of, patterns};
ghost use Rattle.bqn_verify.specs.Judged.{leaf_has_slot_up, leaf_is_there};
ghost use Rattle.bqn_verify.specs.Rows.{IsStart};

use crate::counts::is_few;
use crate::slots::{Start, has_slot};
use bqn_code::{Code, PatternCode};

/// Whether at most so many lists stand in one another. It goes no deeper than that.
#[cycle(flat)]
#[tactic(auto, using(bqn_code::specs::PatternEquations::pattern_equations, crate::proofs::Nesting::nests))]
pub fn is_flat(p: &PatternCode, room: u16) -> bool
    ensures { result ≡ nat_le (nesting (pattern_of p.now)) room }
{
    match p {
        PatternCode::List(all) => {
            if room == 0 {
                return false;
            }
            are_flat(all.list(), room - 1)
        }
        PatternCode::Skip
        | PatternCode::Define { .. }
        | PatternCode::Change { .. }
        | PatternCode::Literal(_) => true,
    }
}

#[cycle(flat)]
#[tactic(auto, using(bqn_code::specs::PatternEquations::pattern_equations, crate::proofs::Nesting::nests))]
fn are_flat(all: &[PatternCode], room: u16) -> bool
    ensures { result ≡ nat_le (all_nesting (patterns (map pattern_of all.now))) room }
{
    for p in all {
        if !is_flat(p, room) {
            return false;
        }
    }
    true
}

/// Whether the names and the constants of the leaves are there.
#[cycle(there)]
#[tactic(auto, using(bqn_code::specs::PatternEquations::pattern_equations, crate::proofs::Leaves::code_lengths))]
pub fn leaves_are_there(code: &Code, p: &PatternCode) -> bool
    ensures { result ≡ leaves (leaf_is_there (code_of code.now)) (pattern_of p.now) }
{
    match p {
        PatternCode::Skip => true,
        PatternCode::Define { name, .. } => (*name as usize) < code.names.list().len(),
        PatternCode::Change { name, .. } => (*name as usize) < code.names.list().len(),
        PatternCode::List(all) => all_leaves_are_there(code, all.list()),
        PatternCode::Literal(k) => (*k as usize) < code.constants.list().len(),
    }
}

#[cycle(there)]
#[tactic(auto, using(bqn_code::specs::PatternEquations::pattern_equations, crate::proofs::Leaves::code_lengths))]
fn all_leaves_are_there(code: &Code, all: &[PatternCode]) -> bool
    ensures { result ≡ all_leaves (leaf_is_there (code_of code.now)) (patterns (map pattern_of all.now)) }
{
    for p in all {
        if !leaves_are_there(code, p) {
            return false;
        }
    }
    true
}

/// Whether the slots of the leaves are there, for a body with this number.
#[cycle(slots)]
#[tactic(auto, using(bqn_code::specs::PatternEquations::pattern_equations))]
pub fn leaves_have_slots(code: &Code, starts: &[Start], number: u64, p: &PatternCode) -> bool
    requires starts { All (IsStart (code_of code.now).blocks) starts.now }
    ensures { result ≡ leaves (leaf_has_slot_up (code_of code.now) number) (pattern_of p.now) }
{
    match p {
        PatternCode::Skip | PatternCode::Literal(_) => true,
        PatternCode::Define { slot, .. } => has_slot(code, starts, number, 0, *slot),
        PatternCode::Change { up, slot, .. } => has_slot(code, starts, number, *up, *slot),
        PatternCode::List(all) => all_leaves_have_slots(code, starts, number, all.list()),
    }
}

#[cycle(slots)]
#[tactic(auto, using(bqn_code::specs::PatternEquations::pattern_equations))]
fn all_leaves_have_slots(code: &Code, starts: &[Start], number: u64, all: &[PatternCode]) -> bool
    requires starts { All (IsStart (code_of code.now).blocks) starts.now }
    ensures { result ≡ all_leaves (leaf_has_slot_up (code_of code.now) number) (patterns (map pattern_of all.now)) }
{
    for p in all {
        if !leaves_have_slots(code, starts, number, p) {
            return false;
        }
    }
    true
}

/// Whether no leaf is a literal.
#[cycle(literals)]
#[tactic(auto, using(bqn_code::specs::PatternEquations::pattern_equations))]
pub fn has_no_literal(p: &PatternCode) -> bool
    ensures { result ≡ leaves is_no_literal (pattern_of p.now) }
{
    match p {
        PatternCode::Skip | PatternCode::Define { .. } | PatternCode::Change { .. } => true,
        PatternCode::List(all) => have_no_literal(all.list()),
        PatternCode::Literal(_) => false,
    }
}

#[cycle(literals)]
#[tactic(auto, using(bqn_code::specs::PatternEquations::pattern_equations))]
fn have_no_literal(all: &[PatternCode]) -> bool
    ensures { result ≡ all_leaves is_no_literal (patterns (map pattern_of all.now)) }
{
    for p in all {
        if !has_no_literal(p) {
            return false;
        }
    }
    true
}

/// Whether no list has too many patterns.
#[cycle(lists)]
#[tactic(auto, using(bqn_code::specs::PatternEquations::pattern_equations, crate::proofs::Leaves::part_laws))]
pub fn lists_are_few(p: &PatternCode) -> bool
    ensures { result ≡ has_few (pattern_of p.now) }
{
    match p {
        PatternCode::List(all) => is_few(all.list().len()) && all_are_few(all.list()),
        PatternCode::Skip
        | PatternCode::Define { .. }
        | PatternCode::Change { .. }
        | PatternCode::Literal(_) => true,
    }
}

#[cycle(lists)]
#[tactic(auto, using(bqn_code::specs::PatternEquations::pattern_equations))]
fn all_are_few(all: &[PatternCode]) -> bool
    ensures { result ≡ all_lists_are_few (patterns (map pattern_of all.now)) }
{
    for p in all {
        if !lists_are_few(p) {
            return false;
        }
    }
    true
}
