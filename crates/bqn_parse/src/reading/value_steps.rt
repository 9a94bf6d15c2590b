ghost use Rattle.std.specs.Prelude.{◌≡◌, ◌≤◌, ◌+◌, ◌++◌, IfOk, [], ◌∷◌, length, map};
ghost use Rattle.std.specs.Option.{option_map};
ghost use Rattle.bqn_syntax.specs.grammar.Expressions.{assigned, changed, steps_of};
ghost use Rattle.bqn_syntax.specs.grammar.Trees as plain;
ghost use Rattle.bqn_syntax.specs.grammar.Trees.{pattern_of, step_of};
ghost use Rattle.bqn_syntax.specs.grammar.Units as units;
ghost use Rattle.bqn_syntax.specs.declared.tree.Arrow.TheVariants as arrows;
ghost use Rattle.bqn_parse.specs.Drafts.{draft_of, function_of};
ghost use Rattle.bqn_parse.specs.Leftward.{joined, left_of, left_shown};
ghost use Rattle.bqn_parse.specs.Views.{backward, when};

use crate::draft::{Draft, Function, derived, part};
use crate::growth::{push, with_room};
use crate::reading::named::named;
use crate::reading::next_unit::{put_back, take};
use crate::unit::Unit;
use bqn_base::{Memory, Row};
use bqn_syntax::{Arrow, Pattern, Step, Tag, Token};
use std::alloc::Global;

/// What stood left of a value.
#[derive(Clone, Copy)]
pub enum Left {
    /// One more step, which has been read.
    More,
    End,
    /// Nothing that can be done with a value.
    Wrong,
}

/// One more step: a call with a left argument.
#[tactic(auto, using(bqn_syntax::specs::grammar::TreeEquations::tree_equations, crate::proofs::Leftward::step_laws))]
#[inline(always)]
fn push_dyad<'t>(
    alloc: Global,
    steps: &mut Vec<Step>,
    function: Function<'t>,
    left: Draft<'t>,
) -> Result<(), Memory>
    ensures { IfOk result (λ done. map step_of steps.new.items
        ≡ map step_of steps.old.items ++ plain.Apply (function_of function.entry) (plain.some (draft_of left.entry)) ∷ []) }
{
    let step = Step::Apply {
        function: derived(alloc, function)?,
        left: Some(part(alloc, left)?),
    };
    push(steps, step)
}

/// One more step: a call without a left argument.
#[tactic(auto, using(bqn_syntax::specs::grammar::TreeEquations::tree_equations, crate::proofs::Leftward::step_laws))]
#[inline(never)]
fn push_monad<'t>(
    alloc: Global,
    steps: &mut Vec<Step>,
    function: Function<'t>,
) -> Result<(), Memory>
    ensures { IfOk result (λ done. map step_of steps.new.items ≡ map step_of steps.old.items ++ plain.Apply (function_of function.entry) plain.none ∷ []) }
{
    let step = Step::Apply {
        function: derived(alloc, function)?,
        left: None,
    };
    push(steps, step)
}

/// One more step: an assignment.
#[tactic(auto, using(bqn_syntax::specs::grammar::TreeEquations::tree_equations, crate::proofs::Leftward::step_laws))]
#[inline(always)]
fn push_assignment(steps: &mut Vec<Step>, target: Pattern, arrow: Arrow) -> Result<(), Memory>
    ensures { IfOk result (λ done. map step_of steps.new.items ≡ map step_of steps.old.items ++ plain.Assign (pattern_of target) arrow ∷ []) }
{
    push(steps, Step::Assign { target, arrow })
}

/// One more step: a change of a name by a function.
#[tactic(auto, using(bqn_syntax::specs::grammar::TreeEquations::tree_equations, crate::proofs::Leftward::step_laws))]
#[inline(never)]
fn push_change<'t>(
    alloc: Global,
    steps: &mut Vec<Step>,
    target: &Token,
    function: Function<'t>,
) -> Result<(), Memory>
    ensures { IfOk result (λ done. map step_of steps.new.items ≡ map step_of steps.old.items ++ plain.Modify target.now (function_of function.entry) ∷ []) }
{
    let step = Step::Modify {
        target: target.copy()?,
        function: derived(alloc, function)?,
    };
    push(steps, step)
}

/// An assignment to a name, where it is one.
#[tactic(auto, using(crate::proofs::Leftward::step_laws, bqn_syntax::specs::grammar::TreeEquations::tree_equations))]
#[inline(always)]
fn assigned_name<'t>(
    steps: &mut Vec<Step>,
    name: Option<&'t Token>,
    arrow: Arrow,
    left: &[Unit<'t>],
) -> Result<Left, Memory>
    ensures means { IfOk result (λ so. joined (map step_of steps.old.items)
        (assigned (option_map (λ t. t.now) name.entry) arrow (steps_of (backward left.now)))
        ≡ left_shown so (map step_of steps.new.items) (backward left.now)) }
    ensures shorter { IfOk result (λ so. left_of so (backward left.now) ≤ length (backward left.now) + 1) }
{
    match name {
        Some(token) => {
            push_assignment(steps, Pattern::Name(token.copy()?), arrow)?;
            Ok(Left::More)
        }
        None => Ok(Left::Wrong),
    }
}

/// A change of a name by a function, where it is one.
#[tactic(auto, using(crate::proofs::Leftward::step_laws))]
#[inline(never)]
fn changed_name<'t>(
    alloc: Global,
    steps: &mut Vec<Step>,
    name: Option<&'t Token>,
    function: Function<'t>,
    left: &[Unit<'t>],
) -> Result<Left, Memory>
    ensures means { IfOk result (λ so. joined (map step_of steps.old.items)
        (changed (option_map (λ t. t.now) name.entry) (function_of function.entry) (steps_of (backward left.now)))
        ≡ left_shown so (map step_of steps.new.items) (backward left.now)) }
    ensures shorter { IfOk result (λ so. left_of so (backward left.now) ≤ length (backward left.now) + 1) }
{
    match name {
        Some(target) => {
            push_change(alloc, steps, target, function)?;
            Ok(Left::More)
        }
        None => Ok(Left::Wrong),
    }
}

/// A call of a function, whose left argument is next, if there is one.
#[tactic(auto, using(crate::proofs::Leftward::step_laws))]
#[inline(always)]
pub fn called<'t>(
    alloc: Global,
    steps: &mut Vec<Step>,
    function: Function<'t>,
    left: &mut Vec<Unit<'t>>,
) -> Result<Left, Memory>
    ensures means { IfOk result (λ so. joined (map step_of steps.old.items) (steps_of (units.Function (function_of function.entry) ∷ backward left.old.items))
        ≡ left_shown so (map step_of steps.new.items) (backward left.new.items)) }
    ensures shorter { IfOk result (λ so. left_of so (backward left.new.items) ≤ length (backward left.old.items) + 1) }
{
    match take(left) {
        Some(Unit::Subject(draft)) | Some(Unit::Absent(draft)) => {
            push_dyad(alloc, steps, function, draft)?;
            Ok(Left::More)
        }
        Some(Unit::Function(before)) => {
            put_back(left, Unit::Function(before))?;
            push_monad(alloc, steps, function)?;
            Ok(Left::More)
        }
        Some(Unit::Arrow(arrow)) => {
            put_back(left, Unit::Arrow(arrow))?;
            push_monad(alloc, steps, function)?;
            Ok(Left::More)
        }
        None => {
            push_monad(alloc, steps, function)?;
            Ok(Left::More)
        }
        Some(Unit::Alone(_)) | Some(Unit::Aim(_)) => Ok(Left::Wrong),
    }
}

/// A function after the arrow `↩`, which changes the name that is next.
#[inline(never)]
pub fn change<'t>(
    alloc: Global,
    steps: &mut Vec<Step>,
    function: Function<'t>,
    left: &mut Vec<Unit<'t>>,
) -> Result<Left, Memory>
    ensures means { IfOk result (λ so. joined (map step_of steps.old.items)
        (steps_of (units.Arrow' arrows.Change ∷ units.Function (function_of function.entry) ∷ backward left.old.items))
        ≡ left_shown so (map step_of steps.new.items) (backward left.new.items)) }
    ensures shorter { IfOk result (λ so. left_of so (backward left.new.items) ≤ length (backward left.old.items) + 1) }
{
    match take(left) {
        Some(Unit::Subject(draft)) => {
            changed_name(alloc, steps, named(Tag::Subject, draft), function, left)
        }
        Some(Unit::Function(_))
        | Some(Unit::Absent(_))
        | Some(Unit::Alone(_))
        | Some(Unit::Arrow(_))
        | Some(Unit::Aim(_))
        | None => Ok(Left::Wrong),
    }
}

/// A function after an arrow.
#[inline(never)]
fn change_by<'t>(
    alloc: Global,
    steps: &mut Vec<Step>,
    arrow: Arrow,
    function: Function<'t>,
    left: &mut Vec<Unit<'t>>,
) -> Result<Left, Memory>
    ensures means { IfOk result (λ so. joined (map step_of steps.old.items)
        (steps_of (units.Arrow' arrow ∷ units.Function (function_of function.entry) ∷ backward left.old.items))
        ≡ left_shown so (map step_of steps.new.items) (backward left.new.items)) }
    ensures shorter { IfOk result (λ so. left_of so (backward left.new.items) ≤ length (backward left.old.items) + 1) }
{
    match arrow {
        Arrow::Change => change(alloc, steps, function, left),
        Arrow::Define | Arrow::Export => Ok(Left::Wrong),
    }
}

/// What an arrow does, by the target that is next.
#[tactic(auto, using(crate::proofs::Leftward::step_laws))]
#[inline(always)]
fn drawn<'t>(
    alloc: Global,
    steps: &mut Vec<Step>,
    arrow: Arrow,
    left: &mut Vec<Unit<'t>>,
) -> Result<Left, Memory>
    ensures means { IfOk result (λ so. joined (map step_of steps.old.items) (steps_of (units.Arrow' arrow ∷ backward left.old.items))
        ≡ left_shown so (map step_of steps.new.items) (backward left.new.items)) }
    ensures shorter { IfOk result (λ so. left_of so (backward left.new.items) ≤ length (backward left.old.items) + 1) }
{
    match take(left) {
        Some(Unit::Aim(pattern)) => {
            push_assignment(steps, pattern.into_inner(), arrow)?;
            Ok(Left::More)
        }
        Some(Unit::Subject(draft)) => {
            assigned_name(steps, named(Tag::Subject, draft), arrow, left)
        }
        Some(Unit::Function(function)) => change_by(alloc, steps, arrow, function, left),
        Some(Unit::Absent(_)) | Some(Unit::Alone(_)) | Some(Unit::Arrow(_)) | None => {
            Ok(Left::Wrong)
        }
    }
}

/// What is done with a value, by what stands left of it.
#[tactic(auto, using(crate::proofs::Leftward::step_laws))]
#[inline(always)]
pub fn next_step<'t>(
    alloc: Global,
    steps: &mut Vec<Step>,
    left: &mut Vec<Unit<'t>>,
) -> Result<Left, Memory>
    ensures means { IfOk result (λ so. joined (map step_of steps.old.items) (steps_of (backward left.old.items))
        ≡ left_shown so (map step_of steps.new.items) (backward left.new.items)) }
    ensures shorter { IfOk result (λ so. left_of so (backward left.new.items) ≤ length (backward left.old.items)) }
{
    match take(left) {
        None => Ok(Left::End),
        Some(Unit::Function(function)) => called(alloc, steps, function, left),
        Some(Unit::Arrow(arrow)) => drawn(alloc, steps, arrow, left),
        Some(Unit::Subject(_))
        | Some(Unit::Absent(_))
        | Some(Unit::Alone(_))
        | Some(Unit::Aim(_)) => Ok(Left::Wrong),
    }
}

/// Room for the steps that are to be expected where these units are left: most take two.
pub fn room_for(alloc: Global, left: &[Unit<'_>]) -> Result<Vec<Step>, Memory>
    ensures { IfOk result (λ steps. steps.items ≡ []) }
{
    with_room(alloc, left.len().div_ceil(2))
}

/// Reads the steps that are left, after those that have been read, where this stood left of the last of them; whether
/// all of it is a value.
#[tactic(auto, using(crate::proofs::Leftward::step_laws))]
pub fn all_steps<'t>(
    alloc: Global,
    first: Left,
    steps: &mut Vec<Step>,
    left: &mut Vec<Unit<'t>>,
) -> Result<bool, Memory>
    ensures { IfOk result (λ fine. when fine (plain.steps (map step_of steps.new.items))
        ≡ left_shown first (map step_of steps.old.items) (backward left.old.items)) }
{
    let mut so = first;
    'steps: loop {
        match so {
            Left::End => return Ok(true),
            Left::Wrong => return Ok(false),
            Left::More => so = next_step(alloc, steps, left)?,
        }
    }
}
