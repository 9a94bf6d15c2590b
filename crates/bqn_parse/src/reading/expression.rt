ghost use Rattle.std.specs.Prelude.{◌≡◌, IfOk, ◌∷◌, map};
ghost use Rattle.std.specs.Option.{option_map};
ghost use Rattle.bqn_syntax.specs.grammar.Expressions as expressions;
ghost use Rattle.bqn_syntax.specs.grammar.Expressions.{steps_of};
ghost use Rattle.bqn_syntax.specs.grammar.Trees as plain;
ghost use Rattle.bqn_syntax.specs.grammar.Trees.{Eval, Export, expr_of, some, step_of, stmt_of};
ghost use Rattle.bqn_syntax.specs.grammar.Units as units;
ghost use Rattle.bqn_syntax.specs.declared.tree.Arrow.TheVariants as arrows;
ghost use Rattle.bqn_parse.specs.Drafts.{draft_of, function_of};
ghost use Rattle.bqn_parse.specs.Leftward.{is_end, is_export, left_shown};
ghost use Rattle.bqn_parse.specs.Views.{backward, unit_shown};

use crate::draft::{Draft, Function, maybe_part, part, tag_of_draft};
use crate::reading::named::exported;
use crate::reading::next_unit::take;
use crate::reading::targets::targets;
use crate::reading::train::train;
use crate::reading::value_steps::{Left, all_steps, called, change, room_for};
use crate::unit::Unit;
use bqn_base::{Memory, Row};
use bqn_syntax::{Arrow, Expr, Step, Stmt};
use std::alloc::Global;

/// The value with this last part, of which these steps have been read, or none.
#[tactic(auto, using(bqn_syntax::specs::grammar::TreeEquations::tree_equations))]
#[inline(always)]
fn value<'t>(
    alloc: Global,
    last: Option<Draft<'t>>,
    first: Left,
    steps: Vec<Step>,
    left: &mut Vec<Unit<'t>>,
) -> Result<Option<Expr>, Memory>
    ensures { IfOk result (λ e. option_map expr_of e
        ≡ expressions.value (plain.maybe_part (option_map draft_of last.entry)) (left_shown first (map step_of steps.items) (backward left.old.items))) }
{
    let mut steps = steps;
    if !all_steps(alloc, first, &mut steps, left)? {
        return Ok(None);
    }
    Ok(Some(Expr::Value {
        last: maybe_part(alloc, last)?,
        steps: Row::new(steps),
    }))
}

/// The value with this last part, by what stands left of it, or none.
#[tactic(auto, using(crate::proofs::Leftward::step_laws))]
fn ends_in_part<'t>(
    alloc: Global,
    last: Draft<'t>,
    left: &mut Vec<Unit<'t>>,
) -> Result<Option<Expr>, Memory>
    ensures { IfOk result (λ e. option_map expr_of e ≡ expressions.value (some (draft_of last.entry)) (steps_of (backward left.old.items))) }
{
    let steps = room_for(alloc, left)?;
    value(alloc, Some(last), Left::More, steps, left)
}

/// The value with this last part, to which a function is applied, or none.
#[tactic(auto, using(crate::proofs::Leftward::step_laws))]
#[inline(never)]
fn ends_in_call<'t>(
    alloc: Global,
    last: Draft<'t>,
    function: Function<'t>,
    left: &mut Vec<Unit<'t>>,
) -> Result<Option<Expr>, Memory>
    ensures { IfOk result (λ e. option_map expr_of e
        ≡ expressions.value (some (draft_of last.entry)) (steps_of (units.Function (function_of function.entry) ∷ backward left.old.items))) }
{
    let mut steps = room_for(alloc, left)?;
    let first = called(alloc, &mut steps, function, left)?;
    value(alloc, Some(last), first, steps, left)
}

/// The value whose last step changes a name by a function, or none.
#[tactic(auto, using(crate::proofs::Leftward::step_laws))]
fn changed_value<'t>(
    alloc: Global,
    function: Function<'t>,
    left: &mut Vec<Unit<'t>>,
) -> Result<Option<Expr>, Memory>
    ensures { IfOk result (λ e. option_map expr_of e
        ≡ expressions.value plain.none (steps_of (units.Arrow' arrows.Change ∷ units.Function (function_of function.entry) ∷ backward left.old.items))) }
{
    let mut steps = room_for(alloc, left)?;
    let first = change(alloc, &mut steps, function, left)?;
    value(alloc, None, first, steps, left)
}

/// An expression that ends in a function and `↩`.
#[tactic(auto, using(crate::proofs::Expressions::expression_laws))]
fn ends_in_change_by<'t>(
    alloc: Global,
    function: Function<'t>,
    left: &mut Vec<Unit<'t>>,
) -> Result<Option<Expr>, Memory>
    ensures { IfOk result (λ e. option_map expr_of e
        ≡ expressions.expression (units.Arrow' arrows.Change ∷ units.Function (function_of function.entry) ∷ backward left.old.items)) }
{
    changed_value(alloc, function, left)
}

/// An expression that ends in `·`.
fn ends_in_skip<'t>(
    alloc: Global,
    skip: Draft<'t>,
    left: &mut Vec<Unit<'t>>,
) -> Result<Option<Expr>, Memory>
    ensures { IfOk result (λ e. option_map expr_of e ≡ expressions.expression (units.Absent (draft_of skip.entry) ∷ backward left.old.items)) }
{
    match take(left) {
        Some(Unit::Function(function)) => ends_in_call(alloc, skip, function, left),
        Some(Unit::Subject(_))
        | Some(Unit::Absent(_))
        | Some(Unit::Alone(_))
        | Some(Unit::Arrow(_))
        | Some(Unit::Aim(_))
        | None => Ok(None),
    }
}

/// An expression that ends in `↩`.
#[tactic(auto, using(crate::proofs::Expressions::expression_laws))]
fn ends_in_change<'t>(alloc: Global, left: &mut Vec<Unit<'t>>) -> Result<Option<Expr>, Memory>
    ensures { IfOk result (λ e. option_map expr_of e ≡ expressions.expression (units.Arrow' arrows.Change ∷ backward left.old.items)) }
{
    match take(left) {
        Some(Unit::Function(function)) => ends_in_change_by(alloc, function, left),
        Some(Unit::Subject(_))
        | Some(Unit::Absent(_))
        | Some(Unit::Alone(_))
        | Some(Unit::Arrow(_))
        | Some(Unit::Aim(_))
        | None => Ok(None),
    }
}

/// An expression that ends in an arrow.
fn ends_in_arrow<'t>(
    alloc: Global,
    arrow: Arrow,
    left: &mut Vec<Unit<'t>>,
) -> Result<Option<Expr>, Memory>
    ensures { IfOk result (λ e. option_map expr_of e ≡ expressions.expression (units.Arrow' arrow ∷ backward left.old.items)) }
{
    match arrow {
        Arrow::Change => ends_in_change(alloc, left),
        Arrow::Define | Arrow::Export => Ok(None),
    }
}

/// An expression that ends in a modifier by itself.
#[tactic(auto, using(bqn_syntax::specs::grammar::TreeEquations::tree_equations))]
fn ends_in_modifier<'t>(
    alloc: Global,
    draft: Draft<'t>,
    left: &mut Vec<Unit<'t>>,
) -> Result<Option<Expr>, Memory>
    ensures { IfOk result (λ e. option_map expr_of e ≡ expressions.expression (units.Alone (draft_of draft.entry) ∷ backward left.old.items)) }
{
    let tag = tag_of_draft(&draft);
    match targets(alloc, tag, left)? {
        None => Ok(None),
        Some(targets) => Ok(Some(Expr::Modifier {
            targets,
            part: part(alloc, draft)?,
        })),
    }
}

/// The expression that is read leftward from this unit, or none.
fn expression_at<'t>(
    alloc: Global,
    unit: Unit<'t>,
    left: &mut Vec<Unit<'t>>,
) -> Result<Option<Expr>, Memory>
    ensures { IfOk result (λ e. option_map expr_of e ≡ expressions.expression (unit_shown unit.entry ∷ backward left.old.items)) }
{
    match unit {
        Unit::Subject(draft) => ends_in_part(alloc, draft, left),
        Unit::Absent(skip) => ends_in_skip(alloc, skip, left),
        Unit::Arrow(arrow) => ends_in_arrow(alloc, arrow, left),
        Unit::Function(function) => train(alloc, function, left),
        Unit::Alone(draft) => ends_in_modifier(alloc, draft, left),
        Unit::Aim(_) => Ok(None),
    }
}

/// The expression that the units of a piece are, or none.
pub fn expression<'t>(alloc: Global, units: &mut Vec<Unit<'t>>) -> Result<Option<Expr>, Memory>
    ensures { IfOk result (λ e. option_map expr_of e ≡ expressions.expression (backward units.old.items)) }
{
    match take(units) {
        Some(unit) => expression_at(alloc, unit, units),
        None => Ok(None),
    }
}

/// Whether this is the arrow `⇐`.
fn is_export(unit: &Unit<'_>) -> bool
    ensures { result ≡ is_export (unit_shown unit.now) }
{
    match unit {
        Unit::Arrow(arrow) => match arrow {
            Arrow::Export => true,
            Arrow::Define | Arrow::Change => false,
        },
        Unit::Subject(_) | Unit::Function(_) | Unit::Absent(_) | Unit::Alone(_) | Unit::Aim(_) =>
            false,
    }
}

/// The export of a unit, or none.
#[tactic(auto, using(bqn_syntax::specs::grammar::TreeEquations::tree_equations))]
fn export_of(unit: Unit<'_>) -> Result<Option<Stmt>, Memory>
    ensures { IfOk result (λ s. option_map stmt_of s ≡ option_map (λ q. Export q) (expressions.exported (unit_shown unit.entry))) }
{
    match exported(unit)? {
        Some(pattern) => Ok(Some(Stmt::Export(pattern))),
        None => Ok(None),
    }
}

/// Whether no unit is left.
#[tactic(auto, using(crate::proofs::Backward::end_laws))]
fn is_end(left: &[Unit<'_>]) -> bool
    ensures { result ≡ is_end (backward left.now) }
{
    left.is_empty()
}

/// The export of a unit that stands alone, or none.
#[tactic(auto, using(crate::proofs::Expressions::export_laws))]
fn export_at<'t>(unit: Unit<'t>, left: &[Unit<'t>]) -> Result<Option<Stmt>, Memory>
    ensures { IfOk result (λ s. option_map stmt_of s ≡ expressions.statement (units.Arrow' arrows.Export ∷ unit_shown unit.entry ∷ backward left.now)) }
{
    if is_end(left) {
        export_of(unit)
    } else {
        Ok(None)
    }
}

/// The export of the one unit that is left, or none.
fn export<'t>(left: &mut Vec<Unit<'t>>) -> Result<Option<Stmt>, Memory>
    ensures { IfOk result (λ s. option_map stmt_of s ≡ expressions.statement (units.Arrow' arrows.Export ∷ backward left.old.items)) }
{
    match take(left) {
        None => Ok(None),
        Some(unit) => export_at(unit, left),
    }
}

/// An expression that is evaluated, or none.
#[tactic(auto, using(bqn_syntax::specs::grammar::TreeEquations::tree_equations))]
fn evaluated<'t>(
    alloc: Global,
    unit: Unit<'t>,
    left: &mut Vec<Unit<'t>>,
) -> Result<Option<Stmt>, Memory>
    ensures { IfOk result (λ s. option_map stmt_of s ≡ option_map (λ e. Eval e) (expressions.expression (unit_shown unit.entry ∷ backward left.old.items))) }
{
    match expression_at(alloc, unit, left)? {
        Some(inner) => Ok(Some(Stmt::Eval(inner))),
        None => Ok(None),
    }
}

/// The statement that is read leftward from this unit, or none.
#[tactic(auto, using(crate::proofs::Expressions::statement_laws))]
fn statement_at<'t>(
    alloc: Global,
    unit: Unit<'t>,
    left: &mut Vec<Unit<'t>>,
) -> Result<Option<Stmt>, Memory>
    ensures { IfOk result (λ s. option_map stmt_of s ≡ expressions.statement (unit_shown unit.entry ∷ backward left.old.items)) }
{
    if is_export(&unit) {
        export(left)
    } else {
        evaluated(alloc, unit, left)
    }
}

/// The statement that the units of a piece are, or none.
pub fn statement<'t>(alloc: Global, units: &mut Vec<Unit<'t>>) -> Result<Option<Stmt>, Memory>
    ensures { IfOk result (λ s. option_map stmt_of s ≡ expressions.statement (backward units.old.items)) }
{
    match take(units) {
        Some(unit) => statement_at(alloc, unit, units),
        None => Ok(None),
    }
}
