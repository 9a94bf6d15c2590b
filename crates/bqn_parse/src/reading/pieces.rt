ghost use Rattle.std.specs.Prelude.{◌≡◌, IfOk};
ghost use Rattle.std.specs.Option.{option_map};
ghost use Rattle.bqn_syntax.specs.grammar.Expressions as expressions;
ghost use Rattle.bqn_syntax.specs.grammar.Trees.{expr_of, stmt_of};
ghost use Rattle.bqn_parse.specs.Views.{items_of};

use crate::item::Item;
use crate::reading::expression::{expression, statement};
use crate::reading::terms::units_in;
use crate::unit::Unit;
use bqn_base::Memory;
use bqn_syntax::{Expr, Stmt};
use std::alloc::Global;

/// The expression that a piece is, or none.
pub fn piece_expression<'t>(
    alloc: Global,
    items: &mut Vec<Item<'t>>,
    units: &mut Vec<Unit<'t>>,
) -> Result<Option<Expr>, Memory>
    ensures { IfOk result (λ e. option_map expr_of e ≡ expressions.piece_expression (items_of items.old.items)) }
{
    if units_in(alloc, items, units)? {
        expression(alloc, units)
    } else {
        Ok(None)
    }
}

/// The statement that a piece is, or none.
pub fn piece_statement<'t>(
    alloc: Global,
    items: &mut Vec<Item<'t>>,
    units: &mut Vec<Unit<'t>>,
) -> Result<Option<Stmt>, Memory>
    ensures { IfOk result (λ s. option_map stmt_of s ≡ expressions.piece_statement (items_of items.old.items)) }
{
    if units_in(alloc, items, units)? {
        statement(alloc, units)
    } else {
        Ok(None)
    }
}

/// The predicate of this condition, which is a value, or none.
#[tactic(auto, using(bqn_syntax::specs::grammar::TreeEquations::tree_equations))]
fn predicate(condition: Expr) -> Option<Stmt>
    ensures { option_map stmt_of result ≡ expressions.predicate (expr_of condition) }
{
    match condition {
        Expr::Value { last, steps } => Some(Stmt::Predicate(Expr::Value { last, steps })),
        Expr::Train { .. } | Expr::Modifier { .. } => None,
    }
}

/// The predicate that a piece is, or none.
pub fn piece_predicate<'t>(
    alloc: Global,
    items: &mut Vec<Item<'t>>,
    units: &mut Vec<Unit<'t>>,
) -> Result<Option<Stmt>, Memory>
    ensures { IfOk result (λ s. option_map stmt_of s ≡ expressions.piece_predicate (items_of items.old.items)) }
{
    match piece_expression(alloc, items, units)? {
        Some(condition) => Ok(predicate(condition)),
        None => Ok(None),
    }
}
