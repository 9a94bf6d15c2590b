ghost use Rattle.std.specs.Prelude.{◌≡◌, Some, OnOk, IfOk, map};
ghost use Rattle.std.specs.Option.{option_map, option_copied};
ghost use Rattle.bqn_syntax.specs.scope.Mentions.{leaf_mention, expr_mentions, part_mentions, exprs_mentions, parts_mentions, steps_mentions, step_mentions, derived_mentions, uses_mentions, use_mentions, deriveds_mentions, target_mentions, pattern_mentions, patterns_mentions, stmt_mentions, stmts_mentions, header_mentions, scopes_of, no_mentions};
ghost use Rattle.bqn_syntax.specs.grammar.Trees.{expr_of, part_of, step_of, derived_of, use_of, stmt_of, pattern_of, header_of, body_of, exprs, parts, patterns, steps, deriveds, uses, stmts, bodies};
ghost use Rattle.bqn_scope.specs.Shown.{how_shown, mentions_backward, mentions_shown, scopes_shown, own_of, own_shown};

use crate::mention::{How, Mention, Own};
use crate::order::{by_arrow, order_of};
use bqn_base::{Memory, Row};
use bqn_syntax::{
    Arrow, BodyTree, Derived, Expr, Header, Kind, ModUse, Part, Pattern, Step, Stmt, Token,
};
use std::alloc::Global;

/// Puts a name before mentions that stand from the last to the first, as each function here does.
#[tactic(auto, using(bqn_syntax::specs::grammar::TreeEquations::tree_equations, crate::specs::Equations::of_mentions, crate::proofs::Backward::backward_laws))]
fn leaf<'a>(mentions: &mut Vec<Mention<'a>>, how: How, token: &'a Token) -> Result<(), Memory>
    ensures { OnOk result (mentions_backward mentions.new.items
        ≡ leaf_mention (how_shown how) token.now.kind token.now (mentions_backward mentions.old.items)) }
{
    match &token.kind {
        Kind::Word(_, _) => mentions.push(Mention::Named(how, token))?,
        Kind::Special(_, _) => mentions.push(Mention::Special(token))?,
        Kind::System(_, _) => mentions.push(Mention::System(token))?,
        _ => {}
    }
    Ok(())
}

#[cycle(pattern)]
#[tactic(auto, using(bqn_syntax::specs::grammar::TreeEquations::tree_equations, crate::specs::Equations::of_mentions, crate::proofs::Backward::backward_laws))]
fn pattern<'a>(mentions: &mut Vec<Mention<'a>>, how: How, q: &'a Pattern) -> Result<(), Memory>
    ensures { OnOk result (mentions_backward mentions.new.items ≡ pattern_mentions (how_shown how) (pattern_of q.now) (mentions_backward mentions.old.items)) }
{
    match q {
        Pattern::Name(token) => leaf(mentions, how, token),
        Pattern::Skip(_) | Pattern::Literal(_) => Ok(()),
        Pattern::List(all) => patterns(mentions, how, all.list()),
        Pattern::Strand(all) => patterns(mentions, how, all.list()),
    }
}

#[cycle(pattern)]
#[tactic(auto, using(bqn_syntax::specs::grammar::TreeEquations::tree_equations, crate::specs::Equations::of_mentions, crate::proofs::Backward::backward_laws))]
fn patterns<'a>(mentions: &mut Vec<Mention<'a>>, how: How, all: &'a [Pattern]) -> Result<(), Memory>
    ensures { OnOk result (mentions_backward mentions.new.items
        ≡ patterns_mentions (how_shown how) (patterns (map pattern_of all.now)) (mentions_backward mentions.old.items)) }
{
    for q in all.iter().rev() {
        pattern(mentions, how, q)?;
    }
    Ok(())
}

#[tactic(auto, using(bqn_syntax::specs::grammar::TreeEquations::tree_equations, crate::specs::Equations::of_mentions, crate::proofs::Backward::backward_laws))]
fn targets<'a>(mentions: &mut Vec<Mention<'a>>, all: &'a [(Token, Arrow)]) -> Result<(), Memory>
    ensures { OnOk result (mentions_backward mentions.new.items ≡ target_mentions all.now (mentions_backward mentions.old.items)) }
{
    for target in all.iter().rev() {
        leaf(mentions, by_arrow(target.1), &target.0)?;
    }
    Ok(())
}

#[tactic(auto, using(bqn_syntax::specs::grammar::TreeEquations::tree_equations, crate::specs::Equations::of_mentions, crate::proofs::Backward::backward_laws))]
fn header<'a>(mentions: &mut Vec<Mention<'a>>, h: &'a Header) -> Result<(), Memory>
    ensures { OnOk result (mentions_backward mentions.new.items ≡ header_mentions (Some (header_of h.now)) (mentions_backward mentions.old.items)) }
{
    if let Some(q) = &h.right {
        pattern(mentions, How::Defines, q)?;
    }
    if let Some(token) = &h.right_operand {
        leaf(mentions, How::Defines, token)?;
    }
    leaf(mentions, How::Defines, &h.own)?;
    if let Some(token) = &h.left_operand {
        leaf(mentions, How::Defines, token)?;
    }
    if let Some(q) = &h.left {
        pattern(mentions, How::Defines, q)?;
    }
    Ok(())
}

#[cycle(mentions)]
#[tactic(auto, using(bqn_syntax::specs::grammar::TreeEquations::tree_equations, crate::specs::Equations::of_mentions, crate::proofs::Backward::backward_laws))]
fn expr<'a>(alloc: Global, mentions: &mut Vec<Mention<'a>>, e: &'a Expr) -> Result<(), Memory>
    ensures { OnOk result (mentions_backward mentions.new.items ≡ expr_mentions (expr_of e.now) (mentions_backward mentions.old.items)) }
{
    match e {
        Expr::Value { last, steps } => {
            if let Some(x) = last {
                part(alloc, mentions, x)?;
            }
            steps_of(alloc, mentions, steps.list())
        }
        Expr::Train {
            targets: names,
            parts: train,
        } => {
            deriveds(alloc, mentions, train.list())?;
            targets(mentions, names.list())
        }
        Expr::Modifier {
            targets: names,
            part: x,
        } => {
            part(alloc, mentions, x)?;
            targets(mentions, names.list())
        }
    }
}

#[cycle(mentions)]
#[tactic(auto, using(bqn_syntax::specs::grammar::TreeEquations::tree_equations, crate::specs::Equations::of_mentions, crate::proofs::Backward::backward_laws))]
fn part<'a>(alloc: Global, mentions: &mut Vec<Mention<'a>>, x: &'a Part) -> Result<(), Memory>
    ensures { OnOk result (mentions_backward mentions.new.items ≡ part_mentions (part_of x.now) (mentions_backward mentions.old.items)) }
{
    match x {
        Part::Leaf(token) => leaf(mentions, How::Reads, token),
        Part::List(all) => exprs(alloc, mentions, all.list()),
        Part::Merge(all) => exprs(alloc, mentions, all.list()),
        Part::Paren(e) => expr(alloc, mentions, e.get()),
        Part::Block(b) => {
            let inner = bodies(alloc, b.get().bodies.list())?;
            mentions.push(Mention::Inner(inner))?;
            Ok(())
        }
        Part::Field { base, .. } => part(alloc, mentions, base.get()),
        Part::Strand(all) => parts(alloc, mentions, all.list()),
        Part::Nothing(_) => Ok(()),
    }
}

#[cycle(mentions)]
#[tactic(auto, using(bqn_syntax::specs::grammar::TreeEquations::tree_equations, crate::specs::Equations::of_mentions, crate::proofs::Backward::backward_laws))]
fn step<'a>(alloc: Global, mentions: &mut Vec<Mention<'a>>, s: &'a Step) -> Result<(), Memory>
    ensures { OnOk result (mentions_backward mentions.new.items ≡ step_mentions (step_of s.now) (mentions_backward mentions.old.items)) }
{
    match s {
        Step::Apply { function, left } => {
            derived(alloc, mentions, function)?;
            if let Some(x) = left {
                part(alloc, mentions, x)?;
            }
            Ok(())
        }
        Step::Assign { target, arrow } => pattern(mentions, by_arrow(*arrow), target),
        Step::Modify { target, function } => {
            derived(alloc, mentions, function)?;
            leaf(mentions, How::Changes, target)
        }
    }
}

#[cycle(mentions)]
#[tactic(auto, using(bqn_syntax::specs::grammar::TreeEquations::tree_equations, crate::specs::Equations::of_mentions, crate::proofs::Backward::backward_laws))]
fn derived<'a>(alloc: Global, mentions: &mut Vec<Mention<'a>>, d: &'a Derived) -> Result<(), Memory>
    ensures { OnOk result (mentions_backward mentions.new.items ≡ derived_mentions (derived_of d.now) (mentions_backward mentions.old.items)) }
{
    uses(alloc, mentions, d.uses.list())?;
    part(alloc, mentions, &d.first)
}

#[cycle(mentions)]
#[tactic(auto, using(bqn_syntax::specs::grammar::TreeEquations::tree_equations, crate::specs::Equations::of_mentions, crate::proofs::Backward::backward_laws))]
fn modifier<'a>(alloc: Global, mentions: &mut Vec<Mention<'a>>, u: &'a ModUse) -> Result<(), Memory>
    ensures { OnOk result (mentions_backward mentions.new.items ≡ use_mentions (use_of u.now) (mentions_backward mentions.old.items)) }
{
    match u {
        ModUse::One(m) => part(alloc, mentions, m),
        ModUse::Two(m, x) => {
            part(alloc, mentions, x)?;
            part(alloc, mentions, m)
        }
    }
}

#[cycle(mentions)]
#[tactic(auto, using(bqn_syntax::specs::grammar::TreeEquations::tree_equations, crate::specs::Equations::of_mentions, crate::proofs::Backward::backward_laws))]
fn exprs<'a>(alloc: Global, mentions: &mut Vec<Mention<'a>>, all: &'a [Expr]) -> Result<(), Memory>
    ensures { OnOk result (mentions_backward mentions.new.items ≡ exprs_mentions (exprs (map expr_of all.now)) (mentions_backward mentions.old.items)) }
{
    for e in all.iter().rev() {
        expr(alloc, mentions, e)?;
    }
    Ok(())
}

#[cycle(mentions)]
#[tactic(auto, using(bqn_syntax::specs::grammar::TreeEquations::tree_equations, crate::specs::Equations::of_mentions, crate::proofs::Backward::backward_laws))]
fn parts<'a>(alloc: Global, mentions: &mut Vec<Mention<'a>>, all: &'a [Part]) -> Result<(), Memory>
    ensures { OnOk result (mentions_backward mentions.new.items ≡ parts_mentions (parts (map part_of all.now)) (mentions_backward mentions.old.items)) }
{
    for x in all.iter().rev() {
        part(alloc, mentions, x)?;
    }
    Ok(())
}

#[cycle(mentions)]
#[tactic(auto, using(bqn_syntax::specs::grammar::TreeEquations::tree_equations, crate::specs::Equations::of_mentions, crate::proofs::Backward::backward_laws))]
fn steps_of<'a>(
    alloc: Global,
    mentions: &mut Vec<Mention<'a>>,
    all: &'a [Step],
) -> Result<(), Memory>
    ensures { OnOk result (mentions_backward mentions.new.items ≡ steps_mentions (steps (map step_of all.now)) (mentions_backward mentions.old.items)) }
{
    for s in all {
        step(alloc, mentions, s)?;
    }
    Ok(())
}

#[cycle(mentions)]
#[tactic(auto, using(bqn_syntax::specs::grammar::TreeEquations::tree_equations, crate::specs::Equations::of_mentions, crate::proofs::Backward::backward_laws))]
fn uses<'a>(alloc: Global, mentions: &mut Vec<Mention<'a>>, all: &'a [ModUse]) -> Result<(), Memory>
    ensures { OnOk result (mentions_backward mentions.new.items ≡ uses_mentions (uses (map use_of all.now)) (mentions_backward mentions.old.items)) }
{
    for u in all.iter().rev() {
        modifier(alloc, mentions, u)?;
    }
    Ok(())
}

#[cycle(mentions)]
#[tactic(auto, using(bqn_syntax::specs::grammar::TreeEquations::tree_equations, crate::specs::Equations::of_mentions, crate::proofs::Backward::backward_laws))]
fn deriveds<'a>(
    alloc: Global,
    mentions: &mut Vec<Mention<'a>>,
    all: &'a [Derived],
) -> Result<(), Memory>
    ensures { OnOk result (mentions_backward mentions.new.items
        ≡ deriveds_mentions (deriveds (map derived_of all.now)) (mentions_backward mentions.old.items)) }
{
    for d in all.iter().rev() {
        derived(alloc, mentions, d)?;
    }
    Ok(())
}

#[cycle(mentions)]
#[tactic(auto, using(bqn_syntax::specs::grammar::TreeEquations::tree_equations, crate::specs::Equations::of_mentions, crate::proofs::Backward::backward_laws))]
fn stmt<'a>(alloc: Global, mentions: &mut Vec<Mention<'a>>, s: &'a Stmt) -> Result<(), Memory>
    ensures { OnOk result (mentions_backward mentions.new.items ≡ stmt_mentions (stmt_of s.now) (mentions_backward mentions.old.items)) }
{
    match s {
        Stmt::Eval(e) | Stmt::Predicate(e) => expr(alloc, mentions, e),
        Stmt::Export(q) => pattern(mentions, How::Shows, q),
    }
}

#[cycle(mentions)]
#[tactic(auto, using(bqn_syntax::specs::grammar::TreeEquations::tree_equations, crate::specs::Equations::of_mentions, crate::proofs::Backward::backward_laws))]
fn statements<'a>(
    alloc: Global,
    mentions: &mut Vec<Mention<'a>>,
    all: &'a [Stmt],
) -> Result<(), Memory>
    ensures { OnOk result (mentions_backward mentions.new.items ≡ stmts_mentions (stmts (map stmt_of all.now)) (mentions_backward mentions.old.items)) }
{
    for s in all.iter().rev() {
        stmt(alloc, mentions, s)?;
    }
    Ok(())
}

#[cycle(mentions)]
#[tactic(auto, using(bqn_syntax::specs::grammar::TreeEquations::tree_equations, crate::specs::Equations::of_mentions, crate::proofs::Backward::backward_laws))]
fn bodies<'a>(alloc: Global, all: &'a [BodyTree]) -> Result<Row<Own<'a>>, Memory>
    ensures { IfOk result (λ row. scopes_shown row ≡ scopes_of (bodies (map body_of all.now))) }
{
    let mut owns = Vec::new(alloc);
    for b in all.iter().rev() {
        let own = body(alloc, b)?;
        owns.push(own)?;
    }
    owns.reverse();
    Ok(Row::new(owns))
}

#[cycle(mentions)]
#[tactic(auto, using(bqn_syntax::specs::grammar::TreeEquations::tree_equations, crate::specs::Equations::of_mentions, crate::proofs::Backward::backward_laws))]
fn body<'a>(alloc: Global, b: &'a BodyTree) -> Result<Own<'a>, Memory>
    ensures { IfOk result (λ own. own_of own ≡ own_shown (body_of b.now)) }
{
    let mut mentions = Vec::new(alloc);
    statements(alloc, &mut mentions, b.statements.list())?;
    if let Some(h) = &b.header {
        header(&mut mentions, h)?;
    }
    mentions.reverse();
    let order = order_of(alloc, b.header.as_ref(), b.statements.list())?;
    Ok(Own {
        mentions: Row::new(mentions),
        order: Row::new(order),
    })
}

/// The mentions of a program's own body, in text order.
#[tactic(auto, using(bqn_syntax::specs::grammar::TreeEquations::tree_equations, crate::specs::Equations::of_mentions, crate::proofs::Backward::backward_laws))]
pub fn mentions_of<'a>(alloc: Global, body: &'a [Stmt]) -> Result<Vec<Mention<'a>>, Memory>
    ensures { IfOk result (λ mentions. mentions_shown mentions.items ≡ stmts_mentions (stmts (map stmt_of body.now)) no_mentions) }
{
    let mut mentions = Vec::new(alloc);
    statements(alloc, &mut mentions, body)?;
    mentions.reverse();
    Ok(mentions)
}
