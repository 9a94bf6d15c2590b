ghost use Rattle.std.specs.Prelude.{◌≡◌, Some, None, OnOk, IfOk, map};
ghost use Rattle.std.specs.Option.{option_map, option_copied};
ghost use Rattle.bqn_syntax.specs.scope.Order.{leaf_order, expr_order, part_order, exprs_order, parts_order, steps_order, step_order, derived_order, uses_order, use_order, deriveds_order, targets_order, pattern_order, patterns_order, stmt_order, stmts_order, argument_order, token_order, header_order, order_of, by_arrow};
ghost use Rattle.bqn_syntax.specs.grammar.Trees.{expr_of, part_of, step_of, derived_of, use_of, stmt_of, pattern_of, header_of, exprs, parts, patterns, steps, deriveds, uses, stmts};
ghost use Rattle.bqn_scope.specs.Shown.{how_shown, events_backward, events_shown};
ghost use Rattle.bqn_scope.specs.Unstarted.{unstarted_order};

use crate::mention::{Event, How};
use bqn_base::Memory;
use bqn_syntax::{Arrow, Derived, Expr, Header, Kind, ModUse, Part, Pattern, Step, Stmt, Token};
use std::alloc::Global;

/// What a target does, by its arrow.
pub fn by_arrow(arrow: Arrow) -> How
    ensures { how_shown result ≡ by_arrow arrow }
{
    match arrow {
        Arrow::Define => How::Defines,
        Arrow::Export => How::Exports,
        Arrow::Change => How::Changes,
    }
}

/// Puts a name before events that stand from the last to the first, as each function here does.
#[tactic(auto, using(bqn_syntax::specs::grammar::TreeEquations::tree_equations, crate::proofs::Backward::backward_laws))]
fn leaf<'a>(events: &mut Vec<Event<'a>>, how: How, token: &'a Token) -> Result<(), Memory>
    ensures { OnOk result (events_backward events.new.items ≡ leaf_order (how_shown how) token.now.kind token.now (events_backward events.old.items)) }
{
    if let Kind::Word(_, _) = &token.kind {
        events.push(Event { how, token })?;
    }
    Ok(())
}

#[cycle(pattern)]
#[tactic(auto, using(bqn_syntax::specs::grammar::TreeEquations::tree_equations, crate::proofs::Backward::backward_laws))]
fn pattern<'a>(events: &mut Vec<Event<'a>>, how: How, q: &'a Pattern) -> Result<(), Memory>
    ensures { OnOk result (events_backward events.new.items ≡ pattern_order (how_shown how) (pattern_of q.now) (events_backward events.old.items)) }
{
    match q {
        Pattern::Name(token) => leaf(events, how, token),
        Pattern::Skip(_) | Pattern::Literal(_) => Ok(()),
        Pattern::List(all) => patterns(events, how, all.list()),
        Pattern::Strand(all) => patterns(events, how, all.list()),
    }
}

#[cycle(pattern)]
#[tactic(auto, using(bqn_syntax::specs::grammar::TreeEquations::tree_equations, crate::proofs::Backward::backward_laws))]
fn patterns<'a>(events: &mut Vec<Event<'a>>, how: How, all: &'a [Pattern]) -> Result<(), Memory>
    ensures { OnOk result (events_backward events.new.items
        ≡ patterns_order (how_shown how) (patterns (map pattern_of all.now)) (events_backward events.old.items)) }
{
    for q in all.iter().rev() {
        pattern(events, how, q)?;
    }
    Ok(())
}

#[tactic(auto, using(bqn_syntax::specs::grammar::TreeEquations::tree_equations, crate::proofs::Backward::backward_laws))]
fn targets<'a>(events: &mut Vec<Event<'a>>, all: &'a [(Token, Arrow)]) -> Result<(), Memory>
    ensures { OnOk result (events_backward events.new.items ≡ targets_order all.now (events_backward events.old.items)) }
{
    for target in all {
        leaf(events, by_arrow(target.1), &target.0)?;
    }
    Ok(())
}

#[cycle(order)]
#[tactic(auto, using(bqn_syntax::specs::grammar::TreeEquations::tree_equations, crate::proofs::Backward::backward_laws, crate::proofs::Unstarted::start_laws))]
fn expr<'a>(events: &mut Vec<Event<'a>>, e: &'a Expr) -> Result<(), Memory>
    ensures { OnOk result (events_backward events.new.items ≡ expr_order (expr_of e.now) (events_backward events.old.items)) }
{
    match e {
        Expr::Value { last, steps } => match last {
            None => unstarted(events, steps.list()),
            Some(x) => {
                steps_of(events, steps.list())?;
                part(events, x)
            }
        },
        Expr::Train {
            targets: names,
            parts: train,
        } => {
            targets(events, names.list())?;
            deriveds(events, train.list())
        }
        Expr::Modifier {
            targets: names,
            part: x,
        } => {
            targets(events, names.list())?;
            part(events, x)
        }
    }
}

#[cycle(order)]
#[tactic(auto, using(bqn_syntax::specs::grammar::TreeEquations::tree_equations, crate::proofs::Backward::backward_laws, crate::proofs::Unstarted::start_laws))]
fn unstarted<'a>(events: &mut Vec<Event<'a>>, all: &'a [Step]) -> Result<(), Memory>
    ensures { OnOk result (events_backward events.new.items ≡ unstarted_order (steps (map step_of all.now)) (events_backward events.old.items)) }
{
    let Some((first, rest)) = all.split_first() else {
        return Ok(());
    };
    match first {
        Step::Modify { target, function } => {
            steps_of(events, rest)?;
            derived(events, function)?;
            leaf(events, How::Changes, target)
        }
        Step::Apply { .. } => steps_of(events, all),
        Step::Assign { .. } => steps_of(events, all),
    }
}

#[cycle(order)]
#[tactic(auto, using(bqn_syntax::specs::grammar::TreeEquations::tree_equations, crate::proofs::Backward::backward_laws, crate::proofs::Unstarted::start_laws))]
fn part<'a>(events: &mut Vec<Event<'a>>, x: &'a Part) -> Result<(), Memory>
    ensures { OnOk result (events_backward events.new.items ≡ part_order (part_of x.now) (events_backward events.old.items)) }
{
    match x {
        Part::Leaf(token) => leaf(events, How::Reads, token),
        Part::List(all) => exprs(events, all.list()),
        Part::Merge(all) => exprs(events, all.list()),
        Part::Paren(e) => expr(events, e.get()),
        Part::Block(_) | Part::Nothing(_) => Ok(()),
        Part::Field { base, .. } => part(events, base.get()),
        Part::Strand(all) => parts(events, all.list()),
    }
}

#[cycle(order)]
#[tactic(auto, using(bqn_syntax::specs::grammar::TreeEquations::tree_equations, crate::proofs::Backward::backward_laws, crate::proofs::Unstarted::start_laws))]
fn step<'a>(events: &mut Vec<Event<'a>>, s: &'a Step) -> Result<(), Memory>
    ensures { OnOk result (events_backward events.new.items ≡ step_order (step_of s.now) (events_backward events.old.items)) }
{
    match s {
        Step::Apply { function, left } => {
            if let Some(x) = left {
                part(events, x)?;
            }
            derived(events, function)
        }
        Step::Assign { target, arrow } => pattern(events, by_arrow(*arrow), target),
        Step::Modify { target, function } => {
            leaf(events, How::Changes, target)?;
            derived(events, function)
        }
    }
}

#[cycle(order)]
#[tactic(auto, using(bqn_syntax::specs::grammar::TreeEquations::tree_equations, crate::proofs::Backward::backward_laws, crate::proofs::Unstarted::start_laws))]
fn derived<'a>(events: &mut Vec<Event<'a>>, d: &'a Derived) -> Result<(), Memory>
    ensures { OnOk result (events_backward events.new.items ≡ derived_order (derived_of d.now) (events_backward events.old.items)) }
{
    part(events, &d.first)?;
    uses(events, d.uses.list())
}

#[cycle(order)]
#[tactic(auto, using(bqn_syntax::specs::grammar::TreeEquations::tree_equations, crate::proofs::Backward::backward_laws, crate::proofs::Unstarted::start_laws))]
fn modifier<'a>(events: &mut Vec<Event<'a>>, u: &'a ModUse) -> Result<(), Memory>
    ensures { OnOk result (events_backward events.new.items ≡ use_order (use_of u.now) (events_backward events.old.items)) }
{
    match u {
        ModUse::One(m) => part(events, m),
        ModUse::Two(m, x) => {
            part(events, m)?;
            part(events, x)
        }
    }
}

#[cycle(order)]
#[tactic(auto, using(bqn_syntax::specs::grammar::TreeEquations::tree_equations, crate::proofs::Backward::backward_laws, crate::proofs::Unstarted::start_laws))]
fn exprs<'a>(events: &mut Vec<Event<'a>>, all: &'a [Expr]) -> Result<(), Memory>
    ensures { OnOk result (events_backward events.new.items ≡ exprs_order (exprs (map expr_of all.now)) (events_backward events.old.items)) }
{
    for e in all.iter().rev() {
        expr(events, e)?;
    }
    Ok(())
}

#[cycle(order)]
#[tactic(auto, using(bqn_syntax::specs::grammar::TreeEquations::tree_equations, crate::proofs::Backward::backward_laws, crate::proofs::Unstarted::start_laws))]
fn parts<'a>(events: &mut Vec<Event<'a>>, all: &'a [Part]) -> Result<(), Memory>
    ensures { OnOk result (events_backward events.new.items ≡ parts_order (parts (map part_of all.now)) (events_backward events.old.items)) }
{
    for x in all.iter().rev() {
        part(events, x)?;
    }
    Ok(())
}

#[cycle(order)]
#[tactic(auto, using(bqn_syntax::specs::grammar::TreeEquations::tree_equations, crate::proofs::Backward::backward_laws, crate::proofs::Unstarted::start_laws))]
fn steps_of<'a>(events: &mut Vec<Event<'a>>, all: &'a [Step]) -> Result<(), Memory>
    ensures { OnOk result (events_backward events.new.items ≡ steps_order (steps (map step_of all.now)) (events_backward events.old.items)) }
{
    for s in all.iter().rev() {
        step(events, s)?;
    }
    Ok(())
}

#[cycle(order)]
#[tactic(auto, using(bqn_syntax::specs::grammar::TreeEquations::tree_equations, crate::proofs::Backward::backward_laws, crate::proofs::Unstarted::start_laws))]
fn uses<'a>(events: &mut Vec<Event<'a>>, all: &'a [ModUse]) -> Result<(), Memory>
    ensures { OnOk result (events_backward events.new.items ≡ uses_order (uses (map use_of all.now)) (events_backward events.old.items)) }
{
    for u in all {
        modifier(events, u)?;
    }
    Ok(())
}

#[cycle(order)]
#[tactic(auto, using(bqn_syntax::specs::grammar::TreeEquations::tree_equations, crate::proofs::Backward::backward_laws, crate::proofs::Unstarted::start_laws))]
fn deriveds<'a>(events: &mut Vec<Event<'a>>, all: &'a [Derived]) -> Result<(), Memory>
    ensures { OnOk result (events_backward events.new.items ≡ deriveds_order (deriveds (map derived_of all.now)) (events_backward events.old.items)) }
{
    for d in all {
        derived(events, d)?;
    }
    Ok(())
}

#[tactic(auto, using(bqn_syntax::specs::grammar::TreeEquations::tree_equations, crate::proofs::Backward::backward_laws))]
fn stmt<'a>(events: &mut Vec<Event<'a>>, s: &'a Stmt) -> Result<(), Memory>
    ensures { OnOk result (events_backward events.new.items ≡ stmt_order (stmt_of s.now) (events_backward events.old.items)) }
{
    match s {
        Stmt::Eval(e) | Stmt::Predicate(e) => expr(events, e),
        Stmt::Export(_) => Ok(()),
    }
}

#[tactic(auto, using(bqn_syntax::specs::grammar::TreeEquations::tree_equations, crate::proofs::Backward::backward_laws))]
fn statements<'a>(events: &mut Vec<Event<'a>>, all: &'a [Stmt]) -> Result<(), Memory>
    ensures { OnOk result (events_backward events.new.items ≡ stmts_order (stmts (map stmt_of all.now)) (events_backward events.old.items)) }
{
    for s in all.iter().rev() {
        stmt(events, s)?;
    }
    Ok(())
}

#[tactic(auto, using(bqn_syntax::specs::grammar::TreeEquations::tree_equations, crate::proofs::Backward::backward_laws))]
fn header<'a>(events: &mut Vec<Event<'a>>, h: &'a Header) -> Result<(), Memory>
    ensures { OnOk result (events_backward events.new.items ≡ header_order (Some (header_of h.now)) (events_backward events.old.items)) }
{
    if let Some(q) = &h.right {
        pattern(events, How::Defines, q)?;
    }
    if let Some(token) = &h.right_operand {
        leaf(events, How::Defines, token)?;
    }
    leaf(events, How::Defines, &h.own)?;
    if let Some(token) = &h.left_operand {
        leaf(events, How::Defines, token)?;
    }
    if let Some(q) = &h.left {
        pattern(events, How::Defines, q)?;
    }
    Ok(())
}

/// The reads and stores of a body, in the order of evaluation.
#[tactic(auto, using(crate::proofs::Backward::backward_laws))]
pub fn order_of<'a>(
    alloc: Global,
    heading: Option<&'a Header>,
    body: &'a [Stmt],
) -> Result<Vec<Event<'a>>, Memory>
    ensures { IfOk result (λ events. events_shown events.items ≡ order_of (option_map header_of (option_copied heading.entry)) (stmts (map stmt_of body.now))) }
{
    let mut events = Vec::new(alloc);
    statements(&mut events, body)?;
    if let Some(h) = heading {
        header(&mut events, h)?;
    }
    events.reverse();
    Ok(events)
}
