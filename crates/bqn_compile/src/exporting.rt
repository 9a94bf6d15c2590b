//! Whether a body exports: a `⇐` stands in its own text.

ghost use Rattle.std.specs.Prelude.{◌≡◌, map};
ghost use Rattle.bqn_syntax.specs.blocks.Exporting as exporting;
ghost use Rattle.bqn_syntax.specs.grammar.Trees.{expr_of, part_of, step_of, derived_of, use_of, stmt_of, exprs as plain_exprs, parts as plain_parts, steps as plain_steps, deriveds as plain_deriveds, uses as plain_uses, stmts as plain_stmts};

use bqn_syntax::{Arrow, Derived, Expr, ModUse, Part, Step, Stmt, Token};

fn is_export(arrow: Arrow) -> bool
    ensures { result ≡ exporting.is_export arrow }
{
    match arrow {
        Arrow::Export => true,
        Arrow::Define | Arrow::Change => false,
    }
}

fn targets(all: &[(Token, Arrow)]) -> bool
    ensures { result ≡ exporting.targets_export all.now }
{
    for t in all {
        if is_export(t.1) {
            return true;
        }
    }
    false
}

#[tactic(auto, using(bqn_syntax::specs::grammar::TreeEquations::tree_equations))]
pub fn statements(all: &[Stmt]) -> bool
    ensures { result ≡ exporting.stmts_export (plain_stmts (map stmt_of all.now)) }
{
    for s in all {
        if statement(s) {
            return true;
        }
    }
    false
}

#[tactic(auto, using(bqn_syntax::specs::grammar::TreeEquations::tree_equations))]
fn statement(s: &Stmt) -> bool
    ensures { result ≡ exporting.stmt_exports (stmt_of s.now) }
{
    match s {
        Stmt::Eval(e) | Stmt::Predicate(e) => expr(e),
        Stmt::Export(_) => true,
    }
}

#[cycle(exports)]
#[tactic(auto, using(bqn_syntax::specs::grammar::TreeEquations::tree_equations))]
fn expr(e: &Expr) -> bool
    ensures { result ≡ exporting.expr_exports (expr_of e.now) }
{
    match e {
        Expr::Value {
            last: None,
            steps: all,
        } => steps(all.list()),
        Expr::Value {
            last: Some(x),
            steps: all,
        } => part(x) || steps(all.list()),
        Expr::Train {
            targets: names,
            parts: train,
        } => targets(names.list()) || deriveds(train.list()),
        Expr::Modifier {
            targets: names,
            part: x,
        } => targets(names.list()) || part(x),
    }
}

#[cycle(exports)]
#[tactic(auto, using(bqn_syntax::specs::grammar::TreeEquations::tree_equations))]
fn part(x: &Part) -> bool
    ensures { result ≡ exporting.part_exports (part_of x.now) }
{
    match x {
        Part::Leaf(_) | Part::Block(_) | Part::Nothing(_) => false,
        Part::List(all) => exprs(all.list()),
        Part::Merge(all) => exprs(all.list()),
        Part::Paren(inner) => expr(inner.get()),
        Part::Field { base, .. } => part(base.get()),
        Part::Strand(all) => parts(all.list()),
    }
}

#[cycle(exports)]
#[tactic(auto, using(bqn_syntax::specs::grammar::TreeEquations::tree_equations))]
fn steps(all: &[Step]) -> bool
    ensures { result ≡ exporting.steps_export (plain_steps (map step_of all.now)) }
{
    for s in all {
        if step(s) {
            return true;
        }
    }
    false
}

#[cycle(exports)]
#[tactic(auto, using(bqn_syntax::specs::grammar::TreeEquations::tree_equations))]
fn step(s: &Step) -> bool
    ensures { result ≡ exporting.step_exports (step_of s.now) }
{
    match s {
        Step::Apply { function, left } => match left {
            None => derived(function),
            Some(w) => derived(function) || part(w),
        },
        Step::Assign { arrow, .. } => is_export(*arrow),
        Step::Modify { function, .. } => derived(function),
    }
}

#[cycle(exports)]
#[tactic(auto, using(bqn_syntax::specs::grammar::TreeEquations::tree_equations))]
fn derived(d: &Derived) -> bool
    ensures { result ≡ exporting.derived_exports (derived_of d.now) }
{
    part(&d.first) || mod_uses(d.uses.list())
}

#[cycle(exports)]
#[tactic(auto, using(bqn_syntax::specs::grammar::TreeEquations::tree_equations))]
fn mod_uses(all: &[ModUse]) -> bool
    ensures { result ≡ exporting.uses_export (plain_uses (map use_of all.now)) }
{
    for u in all {
        if mod_use(u) {
            return true;
        }
    }
    false
}

#[cycle(exports)]
#[tactic(auto, using(bqn_syntax::specs::grammar::TreeEquations::tree_equations))]
fn mod_use(u: &ModUse) -> bool
    ensures { result ≡ exporting.use_exports (use_of u.now) }
{
    match u {
        ModUse::One(m) => part(m),
        ModUse::Two(m, x) => part(m) || part(x),
    }
}

#[cycle(exports)]
#[tactic(auto, using(bqn_syntax::specs::grammar::TreeEquations::tree_equations))]
fn deriveds(all: &[Derived]) -> bool
    ensures { result ≡ exporting.deriveds_export (plain_deriveds (map derived_of all.now)) }
{
    for d in all {
        if derived(d) {
            return true;
        }
    }
    false
}

#[cycle(exports)]
#[tactic(auto, using(bqn_syntax::specs::grammar::TreeEquations::tree_equations))]
fn exprs(all: &[Expr]) -> bool
    ensures { result ≡ exporting.exprs_export (plain_exprs (map expr_of all.now)) }
{
    for e in all {
        if expr(e) {
            return true;
        }
    }
    false
}

#[cycle(exports)]
#[tactic(auto, using(bqn_syntax::specs::grammar::TreeEquations::tree_equations))]
fn parts(all: &[Part]) -> bool
    ensures { result ≡ exporting.parts_export (plain_parts (map part_of all.now)) }
{
    for x in all {
        if part(x) {
            return true;
        }
    }
    false
}
