ghost use Rattle.std.specs.Prelude.{◌≡◌, ◌≤◌, ◌+◌, IfOk, length, true, false};
ghost use Rattle.std.specs.Option.{option_map};
ghost use Rattle.bqn_syntax.specs.grammar.Expressions.{train};
ghost use Rattle.bqn_syntax.specs.grammar.Trees as plain;
ghost use Rattle.bqn_syntax.specs.grammar.Trees.{and_deriveds, expr_of, no_deriveds, no_uses};
ghost use Rattle.bqn_parse.specs.declared.reading.train.Turn.TheVariants as turn;
ghost use Rattle.bqn_parse.specs.Drafts.{draft_of, function_of};
ghost use Rattle.bqn_parse.specs.Trains.{parts_shown, turn_left, turn_shown};
ghost use Rattle.bqn_parse.specs.Views.{backward};

use crate::draft::{Draft, Function, derived, part};
use crate::growth::{append, shrunk};
use crate::reading::next_unit::{put_back, take};
use crate::reading::targets::targets;
use crate::unit::Unit;
use bqn_base::{Memory, Row};
use bqn_syntax::{Derived, Expr, Tag};
use std::alloc::Global;

/// What stands left of the parts of a train.
#[derive(Drop)]
enum Turn {
    /// One more part, which has been read.
    More,
    /// Targets, or nothing.
    Aimed,
    /// Nothing that a train can have there.
    Wrong,
}

/// A function is one more part.
#[tactic(auto, using(crate::proofs::Trains::train_laws, bqn_syntax::specs::grammar::TreeEquations::tree_equations))]
fn push_function<'t>(
    alloc: Global,
    parts: &mut Vec<Derived>,
    function: Function<'t>,
) -> Result<(), Memory>
    ensures { IfOk result (λ done. parts_shown parts.new.items ≡ and_deriveds (function_of function.entry) (parts_shown parts.old.items)) }
{
    append(parts, derived(alloc, function)?)
}

/// A part with no modifier is one more part.
#[tactic(auto, using(crate::proofs::Trains::train_laws, bqn_syntax::specs::grammar::TreeEquations::tree_equations))]
fn push_alone<'t>(alloc: Global, parts: &mut Vec<Derived>, draft: Draft<'t>) -> Result<(), Memory>
    ensures { IfOk result (λ done. parts_shown parts.new.items ≡ and_deriveds (plain.derived (draft_of draft.entry) no_uses) (parts_shown parts.old.items)) }
{
    let alone = Derived {
        first: part(alloc, draft)?,
        uses: Row::new(Vec::new(alloc)),
    };
    append(parts, alone)
}

/// One more part, which is a function.
fn function_part<'t>(
    alloc: Global,
    parts: &mut Vec<Derived>,
    left: &mut Vec<Unit<'t>>,
) -> Result<Turn, Memory>
    ensures means { IfOk result (λ turn. train false (parts_shown parts.old.items) (backward left.old.items)
        ≡ turn_shown turn true (parts_shown parts.new.items) (backward left.new.items)) }
    ensures fewer { IfOk result (λ turn. turn_left turn (backward left.new.items) ≤ length (backward left.old.items)) }
{
    match take(left) {
        Some(Unit::Function(function)) => {
            push_function(alloc, parts, function)?;
            Ok(Turn::More)
        }
        Some(Unit::Arrow(arrow)) => {
            put_back(left, Unit::Arrow(arrow))?;
            Ok(Turn::Aimed)
        }
        None => Ok(Turn::Aimed),
        Some(Unit::Subject(_))
        | Some(Unit::Absent(_))
        | Some(Unit::Alone(_))
        | Some(Unit::Aim(_)) => Ok(Turn::Wrong),
    }
}

/// One more part, which is a function, a subject or `·`.
fn any_part<'t>(
    alloc: Global,
    parts: &mut Vec<Derived>,
    left: &mut Vec<Unit<'t>>,
) -> Result<Turn, Memory>
    ensures means { IfOk result (λ turn. train true (parts_shown parts.old.items) (backward left.old.items)
        ≡ turn_shown turn false (parts_shown parts.new.items) (backward left.new.items)) }
    ensures fewer { IfOk result (λ turn. turn_left turn (backward left.new.items) ≤ length (backward left.old.items)) }
{
    match take(left) {
        Some(Unit::Function(function)) => {
            push_function(alloc, parts, function)?;
            Ok(Turn::More)
        }
        Some(Unit::Subject(draft)) | Some(Unit::Absent(draft)) => {
            push_alone(alloc, parts, draft)?;
            Ok(Turn::More)
        }
        Some(Unit::Arrow(arrow)) => {
            put_back(left, Unit::Arrow(arrow))?;
            Ok(Turn::Aimed)
        }
        None => Ok(Turn::Aimed),
        Some(Unit::Alone(_)) | Some(Unit::Aim(_)) => Ok(Turn::Wrong),
    }
}

/// A train whose parts are all known, and its targets.
#[tactic(auto, using(bqn_syntax::specs::grammar::TreeEquations::tree_equations))]
fn aimed<'t>(
    alloc: Global,
    parts: Vec<Derived>,
    left: &mut Vec<Unit<'t>>,
) -> Result<Option<Expr>, Memory>
    ensures { IfOk result (λ e. option_map expr_of e ≡ turn_shown turn.Aimed true (parts_shown parts.items) (backward left.old.items)) }
{
    let mut parts = parts;
    parts.reverse();
    match targets(alloc, Tag::Function, left)? {
        None => Ok(None),
        Some(targets) => Ok(Some(Expr::Train {
            targets,
            parts: Row::new(shrunk(parts)),
        })),
    }
}

/// The function whose last part this is, by what stands left of it, or none.
#[tactic(auto, using(crate::proofs::Trains::train_laws))]
pub fn train<'t>(
    alloc: Global,
    last: Function<'t>,
    left: &mut Vec<Unit<'t>>,
) -> Result<Option<Expr>, Memory>
    ensures { IfOk result (λ e. option_map expr_of e ≡ train false (and_deriveds (function_of last.entry) no_deriveds) (backward left.old.items)) }
{
    let mut parts = Vec::new(alloc);
    push_function(alloc, &mut parts, last)?;
    let mut any = false;
    'parts: loop {
        let turn = if any {
            any_part(alloc, &mut parts, left)?
        } else {
            function_part(alloc, &mut parts, left)?
        };
        match turn {
            Turn::More => any = !any,
            Turn::Aimed => return aimed(alloc, parts, left),
            Turn::Wrong => return Ok(None),
        }
    }
}
