//! The pools of a program, gathered in text order, or the first token that is one too many.

ghost use Rattle.std.specs.Prelude.{◌≡◌, map};
ghost use Rattle.std.specs.Option.{option_map};
ghost use Rattle.bqn_syntax.specs.scope.Order.{Reads, Defines, by_arrow};
ghost use Rattle.bqn_syntax.specs.grammar.Trees.{expr_of, part_of, step_of, derived_of, use_of, stmt_of, block_of, body_of, pattern_of, header_of, exprs as plain_exprs, parts as plain_parts, patterns as plain_patterns, steps as plain_steps, deriveds as plain_deriveds, uses as plain_uses, stmts as plain_stmts, bodies as plain_bodies};
ghost use Rattle.bqn_scope.specs.Scopes.{use_shown};
ghost use Rattle.bqn_compile.specs.Gathering as gather;
ghost use Rattle.bqn_compile.specs.Shown.{GathersTo, gathered_shown};

use crate::error::CompileError;
use crate::patterns::pattern_code;
use crate::pooling::{constant, defines, exported, fields, name, opens, refers};
use crate::pools::Pools;
use bqn_scope::Use;
use bqn_syntax::{
    Arrow, BlockTree, BodyTree, Derived, Expr, Header, Kind, ModUse, Part, Pattern, Step, Stmt,
    Token,
};

#[tactic(auto, using(bqn_syntax::specs::grammar::TreeEquations::tree_equations))]
fn read(pools: &mut Pools, uses: &[Use], t: &Token) -> Result<(), CompileError>
    ensures { GathersTo result (gathered_shown pools.new) (gather.token gather.the_most (map use_shown uses.now) Reads t.now (gathered_shown pools.old)) }
{
    match t.kind {
        Kind::Word(_, _) => refers(pools, uses, false, t.place),
        _ => constant(pools, &t.kind, t.place),
    }
}

#[tactic(auto, using(bqn_syntax::specs::grammar::TreeEquations::tree_equations))]
fn stored(pools: &mut Pools, uses: &[Use], t: &Token, arrow: Arrow) -> Result<(), CompileError>
    ensures { GathersTo result (gathered_shown pools.new)
        (gather.token gather.the_most (map use_shown uses.now) (by_arrow arrow) t.now (gathered_shown pools.old)) }
{
    match &t.kind {
        Kind::Word(spelling, _) => {
            refers(pools, uses, defines(arrow), t.place)?;
            match arrow {
                Arrow::Export => name(pools, spelling.chars()),
                Arrow::Define | Arrow::Change => Ok(()),
            }
        }
        _ => constant(pools, &t.kind, t.place),
    }
}

#[tactic(auto, using(bqn_syntax::specs::grammar::TreeEquations::tree_equations))]
fn pattern_leaf(
    pools: &mut Pools,
    uses: &[Use],
    t: &Token,
    arrow: Arrow,
) -> Result<(), CompileError>
    ensures { GathersTo result (gathered_shown pools.new)
        (gather.pattern_leaf gather.the_most (map use_shown uses.now) (by_arrow arrow) t.now.kind t.now.place (gathered_shown pools.old)) }
{
    match &t.kind {
        Kind::Word(spelling, _) => {
            refers(pools, uses, defines(arrow), t.place)?;
            name(pools, spelling.chars())
        }
        _ => constant(pools, &t.kind, t.place),
    }
}

#[cycle(leaves)]
#[tactic(auto, using(bqn_syntax::specs::grammar::TreeEquations::tree_equations))]
fn leaves(pools: &mut Pools, uses: &[Use], q: &Pattern, arrow: Arrow) -> Result<(), CompileError>
    ensures { GathersTo result (gathered_shown pools.new)
        (gather.leaves gather.the_most (map use_shown uses.now) (by_arrow arrow) (pattern_of q.now) (gathered_shown pools.old)) }
{
    match q {
        Pattern::Name(t) | Pattern::Literal(t) => pattern_leaf(pools, uses, t, arrow),
        Pattern::Skip(_) => Ok(()),
        Pattern::List(all) => all_leaves(pools, uses, all.list(), arrow),
        Pattern::Strand(all) => all_leaves(pools, uses, all.list(), arrow),
    }
}

#[cycle(leaves)]
#[tactic(auto, using(bqn_syntax::specs::grammar::TreeEquations::tree_equations))]
fn all_leaves(
    pools: &mut Pools,
    uses: &[Use],
    all: &[Pattern],
    arrow: Arrow,
) -> Result<(), CompileError>
    ensures { GathersTo result (gathered_shown pools.new)
        (gather.all_leaves gather.the_most (map use_shown uses.now) (by_arrow arrow) (plain_patterns (map pattern_of all.now)) (gathered_shown pools.old)) }
{
    for q in all {
        leaves(pools, uses, q, arrow)?;
    }
    Ok(())
}

#[tactic(auto, using(bqn_syntax::specs::grammar::TreeEquations::tree_equations))]
fn pattern(pools: &mut Pools, uses: &[Use], q: &Pattern, arrow: Arrow) -> Result<(), CompileError>
    ensures { GathersTo result (gathered_shown pools.new)
        (gather.pattern gather.the_most (map use_shown uses.now) (by_arrow arrow) (pattern_of q.now) (gathered_shown pools.old)) }
{
    let mut number = pools.uses;
    leaves(pools, uses, q, arrow)?;
    let code = pattern_code(pools, uses, arrow, &mut number, q)?;
    pools.patterns.push(code)?;
    Ok(())
}

#[tactic(auto, using(bqn_syntax::specs::grammar::TreeEquations::tree_equations))]
fn target(pools: &mut Pools, uses: &[Use], q: &Pattern, arrow: Arrow) -> Result<(), CompileError>
    ensures { GathersTo result (gathered_shown pools.new)
        (gather.target gather.the_most (map use_shown uses.now) (by_arrow arrow) (pattern_of q.now) (gathered_shown pools.old)) }
{
    match q {
        Pattern::Name(t) => stored(pools, uses, t, arrow),
        Pattern::Skip(_) | Pattern::Literal(_) => pattern(pools, uses, q, arrow),
        Pattern::List(_) | Pattern::Strand(_) => pattern(pools, uses, q, arrow),
    }
}

#[tactic(auto, using(bqn_syntax::specs::grammar::TreeEquations::tree_equations))]
fn argument(pools: &mut Pools, uses: &[Use], q: &Option<Pattern>) -> Result<(), CompileError>
    ensures { GathersTo result (gathered_shown pools.new)
        (gather.argument gather.the_most (map use_shown uses.now) (option_map pattern_of q.now) (gathered_shown pools.old)) }
{
    let Some(q) = q else {
        return Ok(());
    };
    match q {
        Pattern::Name(t) => match t.kind {
            Kind::Special(_, _) => Ok(()),
            _ => pattern(pools, uses, q, Arrow::Define),
        },
        Pattern::Skip(_) | Pattern::Literal(_) => pattern(pools, uses, q, Arrow::Define),
        Pattern::List(_) | Pattern::Strand(_) => pattern(pools, uses, q, Arrow::Define),
    }
}

#[tactic(auto, using(bqn_syntax::specs::grammar::TreeEquations::tree_equations))]
fn operand(pools: &mut Pools, uses: &[Use], t: &Option<Token>) -> Result<(), CompileError>
    ensures { GathersTo result (gathered_shown pools.new) (gather.operand gather.the_most (map use_shown uses.now) t.now (gathered_shown pools.old)) }
{
    match t {
        None => Ok(()),
        Some(t) => stored(pools, uses, t, Arrow::Define),
    }
}

#[tactic(auto, using(bqn_syntax::specs::grammar::TreeEquations::tree_equations))]
fn header(pools: &mut Pools, uses: &[Use], h: &Option<Header>) -> Result<(), CompileError>
    ensures { GathersTo result (gathered_shown pools.new)
        (gather.header gather.the_most (map use_shown uses.now) (option_map header_of h.now) (gathered_shown pools.old)) }
{
    let Some(h) = h else {
        return Ok(());
    };
    argument(pools, uses, &h.left)?;
    operand(pools, uses, &h.left_operand)?;
    stored(pools, uses, &h.own, Arrow::Define)?;
    operand(pools, uses, &h.right_operand)?;
    argument(pools, uses, &h.right)
}

#[tactic(auto, using(bqn_syntax::specs::grammar::TreeEquations::tree_equations))]
fn targets(pools: &mut Pools, uses: &[Use], all: &[(Token, Arrow)]) -> Result<(), CompileError>
    ensures { GathersTo result (gathered_shown pools.new) (gather.targets gather.the_most (map use_shown uses.now) all.now (gathered_shown pools.old)) }
{
    for t in all {
        stored(pools, uses, &t.0, t.1)?;
    }
    Ok(())
}

#[cycle(gather)]
#[tactic(auto, using(bqn_syntax::specs::grammar::TreeEquations::tree_equations))]
fn expr(pools: &mut Pools, uses: &[Use], e: &Expr) -> Result<(), CompileError>
    ensures { GathersTo result (gathered_shown pools.new) (gather.expr gather.the_most (map use_shown uses.now) (expr_of e.now) (gathered_shown pools.old)) }
{
    match e {
        Expr::Value { last, steps: all } => {
            steps(pools, uses, all.list())?;
            match last {
                None => Ok(()),
                Some(x) => part(pools, uses, x),
            }
        }
        Expr::Train {
            targets: names,
            parts: train,
        } => {
            targets(pools, uses, names.list())?;
            deriveds(pools, uses, train.list())
        }
        Expr::Modifier {
            targets: names,
            part: x,
        } => {
            targets(pools, uses, names.list())?;
            part(pools, uses, x)
        }
    }
}

#[cycle(gather)]
#[tactic(auto, using(bqn_syntax::specs::grammar::TreeEquations::tree_equations))]
fn part(pools: &mut Pools, uses: &[Use], x: &Part) -> Result<(), CompileError>
    ensures { GathersTo result (gathered_shown pools.new) (gather.part gather.the_most (map use_shown uses.now) (part_of x.now) (gathered_shown pools.old)) }
{
    match x {
        Part::Leaf(t) => read(pools, uses, t),
        Part::List(all) => exprs(pools, uses, all.list()),
        Part::Merge(all) => exprs(pools, uses, all.list()),
        Part::Paren(inner) => expr(pools, uses, inner.get()),
        Part::Block(inner) => block(pools, uses, inner.get()),
        Part::Field { base, names } => {
            part(pools, uses, base.get())?;
            fields(pools, names.list())
        }
        Part::Strand(all) => parts(pools, uses, all.list()),
        Part::Nothing(_) => Ok(()),
    }
}

#[cycle(gather)]
#[tactic(auto, using(bqn_syntax::specs::grammar::TreeEquations::tree_equations))]
fn block(pools: &mut Pools, uses: &[Use], b: &BlockTree) -> Result<(), CompileError>
    ensures { GathersTo result (gathered_shown pools.new)
        (gather.block_tree gather.the_most (map use_shown uses.now) (block_of b.now) (gathered_shown pools.old)) }
{
    opens(pools, b.place)?;
    bodies(pools, uses, b.bodies.list())
}

#[cycle(gather)]
#[tactic(auto, using(bqn_syntax::specs::grammar::TreeEquations::tree_equations, crate::proofs::Gathered::step_laws))]
fn steps(pools: &mut Pools, uses: &[Use], all: &[Step]) -> Result<(), CompileError>
    ensures { GathersTo result (gathered_shown pools.new)
        (gather.steps gather.the_most (map use_shown uses.now) (plain_steps (map step_of all.now)) (gathered_shown pools.old)) }
{
    for s in all.iter().rev() {
        step(pools, uses, s)?;
    }
    Ok(())
}

#[cycle(gather)]
#[tactic(auto, using(bqn_syntax::specs::grammar::TreeEquations::tree_equations))]
fn step(pools: &mut Pools, uses: &[Use], s: &Step) -> Result<(), CompileError>
    ensures { GathersTo result (gathered_shown pools.new) (gather.step gather.the_most (map use_shown uses.now) (step_of s.now) (gathered_shown pools.old)) }
{
    match s {
        Step::Apply { function, left } => match left {
            None => derived(pools, uses, function),
            Some(w) => {
                part(pools, uses, w)?;
                derived(pools, uses, function)
            }
        },
        Step::Assign { target: q, arrow } => target(pools, uses, q, *arrow),
        Step::Modify {
            target: t,
            function,
        } => {
            stored(pools, uses, t, Arrow::Change)?;
            derived(pools, uses, function)
        }
    }
}

#[cycle(gather)]
#[tactic(auto, using(bqn_syntax::specs::grammar::TreeEquations::tree_equations))]
fn derived(pools: &mut Pools, uses: &[Use], d: &Derived) -> Result<(), CompileError>
    ensures { GathersTo result (gathered_shown pools.new)
        (gather.derived_part gather.the_most (map use_shown uses.now) (derived_of d.now) (gathered_shown pools.old)) }
{
    part(pools, uses, &d.first)?;
    mod_uses(pools, uses, d.uses.list())
}

#[cycle(gather)]
#[tactic(auto, using(bqn_syntax::specs::grammar::TreeEquations::tree_equations))]
fn mod_uses(pools: &mut Pools, uses: &[Use], all: &[ModUse]) -> Result<(), CompileError>
    ensures { GathersTo result (gathered_shown pools.new)
        (gather.mod_uses gather.the_most (map use_shown uses.now) (plain_uses (map use_of all.now)) (gathered_shown pools.old)) }
{
    for u in all {
        mod_use(pools, uses, u)?;
    }
    Ok(())
}

#[cycle(gather)]
#[tactic(auto, using(bqn_syntax::specs::grammar::TreeEquations::tree_equations))]
fn mod_use(pools: &mut Pools, uses: &[Use], u: &ModUse) -> Result<(), CompileError>
    ensures { GathersTo result (gathered_shown pools.new) (gather.mod_use gather.the_most (map use_shown uses.now) (use_of u.now) (gathered_shown pools.old)) }
{
    match u {
        ModUse::One(m) => part(pools, uses, m),
        ModUse::Two(m, x) => {
            part(pools, uses, m)?;
            part(pools, uses, x)
        }
    }
}

#[cycle(gather)]
#[tactic(auto, using(bqn_syntax::specs::grammar::TreeEquations::tree_equations))]
fn deriveds(pools: &mut Pools, uses: &[Use], all: &[Derived]) -> Result<(), CompileError>
    ensures { GathersTo result (gathered_shown pools.new)
        (gather.deriveds gather.the_most (map use_shown uses.now) (plain_deriveds (map derived_of all.now)) (gathered_shown pools.old)) }
{
    for d in all {
        derived(pools, uses, d)?;
    }
    Ok(())
}

#[cycle(gather)]
#[tactic(auto, using(bqn_syntax::specs::grammar::TreeEquations::tree_equations))]
fn exprs(pools: &mut Pools, uses: &[Use], all: &[Expr]) -> Result<(), CompileError>
    ensures { GathersTo result (gathered_shown pools.new)
        (gather.exprs gather.the_most (map use_shown uses.now) (plain_exprs (map expr_of all.now)) (gathered_shown pools.old)) }
{
    for e in all {
        expr(pools, uses, e)?;
    }
    Ok(())
}

#[cycle(gather)]
#[tactic(auto, using(bqn_syntax::specs::grammar::TreeEquations::tree_equations))]
fn parts(pools: &mut Pools, uses: &[Use], all: &[Part]) -> Result<(), CompileError>
    ensures { GathersTo result (gathered_shown pools.new)
        (gather.parts gather.the_most (map use_shown uses.now) (plain_parts (map part_of all.now)) (gathered_shown pools.old)) }
{
    for x in all {
        part(pools, uses, x)?;
    }
    Ok(())
}

#[cycle(gather)]
#[tactic(auto, using(bqn_syntax::specs::grammar::TreeEquations::tree_equations))]
pub fn stmts(pools: &mut Pools, uses: &[Use], all: &[Stmt]) -> Result<(), CompileError>
    ensures { GathersTo result (gathered_shown pools.new)
        (gather.stmts gather.the_most (map use_shown uses.now) (plain_stmts (map stmt_of all.now)) (gathered_shown pools.old)) }
{
    for s in all {
        stmt(pools, uses, s)?;
    }
    Ok(())
}

#[cycle(gather)]
#[tactic(auto, using(bqn_syntax::specs::grammar::TreeEquations::tree_equations))]
fn stmt(pools: &mut Pools, uses: &[Use], s: &Stmt) -> Result<(), CompileError>
    ensures { GathersTo result (gathered_shown pools.new) (gather.stmt gather.the_most (map use_shown uses.now) (stmt_of s.now) (gathered_shown pools.old)) }
{
    match s {
        Stmt::Eval(e) | Stmt::Predicate(e) => expr(pools, uses, e),
        Stmt::Export(q) => exported(pools, q),
    }
}

#[cycle(gather)]
#[tactic(auto, using(bqn_syntax::specs::grammar::TreeEquations::tree_equations))]
fn bodies(pools: &mut Pools, uses: &[Use], all: &[BodyTree]) -> Result<(), CompileError>
    ensures { GathersTo result (gathered_shown pools.new)
        (gather.bodies gather.the_most (map use_shown uses.now) (plain_bodies (map body_of all.now)) (gathered_shown pools.old)) }
{
    for b in all {
        body(pools, uses, b)?;
    }
    Ok(())
}

#[cycle(gather)]
#[tactic(auto, using(bqn_syntax::specs::grammar::TreeEquations::tree_equations))]
fn body(pools: &mut Pools, uses: &[Use], b: &BodyTree) -> Result<(), CompileError>
    ensures { GathersTo result (gathered_shown pools.new)
        (gather.body_tree gather.the_most (map use_shown uses.now) (body_of b.now) (gathered_shown pools.old)) }
{
    header(pools, uses, &b.header)?;
    stmts(pools, uses, b.statements.list())
}
