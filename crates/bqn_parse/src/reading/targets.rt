ghost use Rattle.std.specs.Prelude.{◌≡◌, ◌≤◌, ◌+◌, IfOk, [], ◌∷◌, length, reverse};
ghost use Rattle.std.specs.Option.{option_and_then, option_map};
ghost use Rattle.bqn_syntax.specs.grammar.Expressions.{single, targets};
ghost use Rattle.bqn_syntax.specs.grammar.Sorts.{named};
ghost use Rattle.bqn_syntax.specs.grammar.Units.{Arrow'};
ghost use Rattle.bqn_parse.specs.Trains.{targets_if};
ghost use Rattle.bqn_parse.specs.Views.{backward, unit_shown};

use crate::growth::{append, shrunk};
use crate::reading::named::{named, single};
use crate::reading::next_unit::take;
use crate::unit::Unit;
use bqn_base::{Memory, Row};
use bqn_syntax::{Arrow, Tag, Token};
use std::alloc::Global;

/// The name of this role that a unit is.
fn name_of<'t>(tag: Tag, unit: Unit<'t>) -> Option<&'t Token>
    ensures { option_map (λ t. t.now) result ≡ option_and_then (named tag) (single (unit_shown unit.entry)) }
{
    match single(unit) {
        Some(draft) => named(tag, draft),
        None => None,
    }
}

/// One more target, left of an arrow, after those found so far from right to left; whether there
/// is one.
#[tactic(auto, using(crate::proofs::Trains::train_laws))]
fn before_arrow<'t>(
    tag: Tag,
    found: &mut Vec<(Token, Arrow)>,
    arrow: Arrow,
    left: &mut Vec<Unit<'t>>,
) -> Result<bool, Memory>
    ensures means { IfOk result (λ fine. targets tag (reverse found.old.items) (Arrow' arrow ∷ backward left.old.items)
        ≡ targets_if fine tag (reverse found.new.items) (backward left.new.items)) }
    ensures fewer { length (backward left.new.items) ≤ length (backward left.old.items) }
{
    let Some(unit) = take(left) else {
        return Ok(false);
    };
    match name_of(tag, unit) {
        None => Ok(false),
        Some(token) => {
            append(found, (token.copy()?, arrow))?;
            Ok(true)
        }
    }
}

/// One more target, whose arrow is this unit; whether there is one.
fn target_at<'t>(
    tag: Tag,
    found: &mut Vec<(Token, Arrow)>,
    unit: Unit<'t>,
    left: &mut Vec<Unit<'t>>,
) -> Result<bool, Memory>
    ensures means { IfOk result (λ fine. targets tag (reverse found.old.items) (unit_shown unit.entry ∷ backward left.old.items)
        ≡ targets_if fine tag (reverse found.new.items) (backward left.new.items)) }
    ensures fewer { length (backward left.new.items) ≤ length (backward left.old.items) }
{
    let Unit::Arrow(arrow) = unit else {
        return Ok(false);
    };
    before_arrow(tag, found, arrow, left)
}

/// The names of this role, each before an arrow, that these units are, from left to right, or none.
#[tactic(auto, using(crate::proofs::Trains::train_laws))]
pub fn targets<'t>(
    alloc: Global,
    tag: Tag,
    left: &mut Vec<Unit<'t>>,
) -> Result<Option<Row<(Token, Arrow)>>, Memory>
    ensures { IfOk result (λ all. all ≡ targets tag [] (backward left.old.items)) }
{
    let mut found = Vec::new(alloc);
    'targets: while let Some(unit) = take(left) {
        match target_at(tag, &mut found, unit, left) {
            Ok(true) => {}
            Ok(false) => return Ok(None),
            Err(error) => return Err(error),
        }
    }
    found.reverse();
    Ok(Some(Row::new(shrunk(found))))
}
