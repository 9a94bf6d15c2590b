ghost use Rattle.std.specs.Prelude.{◌≡◌, map};
ghost use Rattle.bqn_syntax.specs.grammar.Classes as classes;
ghost use Rattle.bqn_syntax.specs.grammar.Trees.{expr_of, part_of, step_of, derived_of, use_of, stmt_of, exprs, parts, steps, deriveds, uses, stmts};
ghost use Rattle.bqn_parse.specs.Marking.{at_most_one, seen_shown};

use bqn_base::Role;
use bqn_syntax::{Derived, Expr, Kind, ModUse, Part, Special, Step, Stmt};

/// Which special names occur: those of arguments and of the function itself (`args`); those of
/// one operand (`one`); `_𝕣` (`one_self`); those of two operands (`two`).
#[derive(Clone, Copy)]
pub struct Seen {
    pub args: bool,
    pub one: bool,
    pub one_self: bool,
    pub two: bool,
}

const NOTHING: Seen = Seen {
    args: false,
    one: false,
    one_self: false,
    two: false,
};

fn and(s: Seen, r: Seen) -> Seen
    ensures { seen_shown result ≡ classes.and (seen_shown s) (seen_shown r) }
{
    Seen {
        args: s.args || r.args,
        one: s.one || r.one,
        one_self: s.one_self || r.one_self,
        two: s.two || r.two,
    }
}

fn seen_in_kind(kind: &Kind) -> Seen
    ensures { seen_shown result ≡ classes.seen_in_kind kind.now }
{
    let mut so = NOTHING;
    let Kind::Special(special, role) = kind else {
        return so;
    };
    match special {
        Special::Left | Special::Right | Special::Own => so.args = true,
        Special::LeftOperand => so.one = true,
        Special::RightOperand => so.two = true,
        Special::Modifier => match role {
            Role::Mod1 => so.one_self = true,
            Role::Mod2 => so.two = true,
            Role::Subject | Role::Function => so.one = true,
        },
    }
    so
}

#[cycle(marks)]
#[tactic(auto, using(bqn_syntax::specs::grammar::TreeEquations::tree_equations, crate::proofs::Marking::seen_laws))]
fn seen_in_expr(e: &Expr) -> Seen
    ensures { seen_shown result ≡ classes.seen_in_expr (expr_of e.now) }
{
    match e {
        Expr::Value { last, steps } => match last {
            None => seen_in_steps(steps.list()),
            Some(x) => and(seen_in_part(x), seen_in_steps(steps.list())),
        },
        Expr::Train { parts, .. } => seen_in_deriveds(parts.list()),
        Expr::Modifier { part, .. } => seen_in_part(part),
    }
}

#[cycle(marks)]
#[tactic(auto, using(bqn_syntax::specs::grammar::TreeEquations::tree_equations, crate::proofs::Marking::seen_laws))]
fn seen_in_part(x: &Part) -> Seen
    ensures { seen_shown result ≡ classes.seen_in_part (part_of x.now) }
{
    match x {
        Part::Leaf(t) => seen_in_kind(&t.kind),
        Part::List(es) => seen_in_exprs(es.list()),
        Part::Merge(es) => seen_in_exprs(es.list()),
        Part::Paren(e) => seen_in_expr(e.get()),
        Part::Block(_) => NOTHING,
        Part::Field { base, .. } => seen_in_part(base.get()),
        Part::Strand(xs) => seen_in_parts(xs.list()),
        Part::Nothing(_) => NOTHING,
    }
}

#[cycle(marks)]
#[tactic(auto, using(bqn_syntax::specs::grammar::TreeEquations::tree_equations, crate::proofs::Marking::seen_laws))]
fn seen_in_step(s: &Step) -> Seen
    ensures { seen_shown result ≡ classes.seen_in_step (step_of s.now) }
{
    match s {
        Step::Apply { function, left } => match left {
            None => seen_in_derived(function),
            Some(x) => and(seen_in_derived(function), seen_in_part(x)),
        },
        Step::Assign { .. } => NOTHING,
        Step::Modify { function, .. } => seen_in_derived(function),
    }
}

#[cycle(marks)]
#[tactic(auto, using(bqn_syntax::specs::grammar::TreeEquations::tree_equations, crate::proofs::Marking::seen_laws))]
fn seen_in_derived(d: &Derived) -> Seen
    ensures { seen_shown result ≡ classes.seen_in_derived (derived_of d.now) }
{
    and(seen_in_part(&d.first), seen_in_uses(d.uses.list()))
}

#[cycle(marks)]
#[tactic(auto, using(bqn_syntax::specs::grammar::TreeEquations::tree_equations, crate::proofs::Marking::seen_laws))]
fn seen_in_use(u: &ModUse) -> Seen
    ensures { seen_shown result ≡ classes.seen_in_use (use_of u.now) }
{
    match u {
        ModUse::One(m) => seen_in_part(m),
        ModUse::Two(m, x) => and(seen_in_part(m), seen_in_part(x)),
    }
}

#[cycle(marks)]
#[tactic(auto, using(bqn_syntax::specs::grammar::TreeEquations::tree_equations, crate::proofs::Marking::seen_laws))]
fn seen_in_exprs(es: &[Expr]) -> Seen
    ensures { seen_shown result ≡ classes.seen_in_exprs (exprs (map expr_of es.now)) }
{
    let mut so = NOTHING;
    for e in es {
        so = and(so, seen_in_expr(e));
    }
    so
}

#[cycle(marks)]
#[tactic(auto, using(bqn_syntax::specs::grammar::TreeEquations::tree_equations, crate::proofs::Marking::seen_laws))]
fn seen_in_uses(us: &[ModUse]) -> Seen
    ensures { seen_shown result ≡ classes.seen_in_uses (uses (map use_of us.now)) }
{
    let mut so = NOTHING;
    for u in us {
        so = and(so, seen_in_use(u));
    }
    so
}

#[cycle(marks)]
#[tactic(auto, using(bqn_syntax::specs::grammar::TreeEquations::tree_equations, crate::proofs::Marking::seen_laws))]
fn seen_in_parts(xs: &[Part]) -> Seen
    ensures { seen_shown result ≡ classes.seen_in_parts (parts (map part_of xs.now)) }
{
    let mut so = NOTHING;
    for x in xs {
        so = and(so, seen_in_part(x));
    }
    so
}

#[cycle(marks)]
#[tactic(auto, using(bqn_syntax::specs::grammar::TreeEquations::tree_equations, crate::proofs::Marking::seen_laws))]
fn seen_in_steps(ss: &[Step]) -> Seen
    ensures { seen_shown result ≡ classes.seen_in_steps (steps (map step_of ss.now)) }
{
    let mut so = NOTHING;
    for s in ss {
        so = and(so, seen_in_step(s));
    }
    so
}

#[cycle(marks)]
#[tactic(auto, using(bqn_syntax::specs::grammar::TreeEquations::tree_equations, crate::proofs::Marking::seen_laws))]
fn seen_in_deriveds(ds: &[Derived]) -> Seen
    ensures { seen_shown result ≡ classes.seen_in_deriveds (deriveds (map derived_of ds.now)) }
{
    let mut so = NOTHING;
    for d in ds {
        so = and(so, seen_in_derived(d));
    }
    so
}

#[tactic(auto, using(bqn_syntax::specs::grammar::TreeEquations::tree_equations))]
fn seen_in_stmt(s: &Stmt) -> Seen
    ensures { seen_shown result ≡ classes.seen_in_stmt (stmt_of s.now) }
{
    match s {
        Stmt::Eval(e) => seen_in_expr(e),
        Stmt::Predicate(e) => seen_in_expr(e),
        Stmt::Export(_) => NOTHING,
    }
}

/// Which special names occur in statements, blocks inside them aside.
#[tactic(auto, using(bqn_syntax::specs::grammar::TreeEquations::tree_equations, crate::proofs::Marking::seen_laws))]
pub fn seen_in_stmts(ss: &[Stmt]) -> Seen
    ensures { seen_shown result ≡ classes.seen_in_stmts (stmts (map stmt_of ss.now)) }
{
    let mut so = NOTHING;
    for s in ss {
        so = and(so, seen_in_stmt(s));
    }
    so
}

#[tactic(auto, using(bqn_syntax::specs::grammar::TreeEquations::tree_equations))]
fn is_predicate(s: &Stmt) -> bool
    ensures { result ≡ classes.is_predicate (stmt_of s.now) }
{
    match s {
        Stmt::Predicate(_) => true,
        Stmt::Eval(_) | Stmt::Export(_) => false,
    }
}

/// Whether there is a predicate among statements.
#[tactic(auto, using(crate::proofs::Marking::seen_laws))]
pub fn has_predicate(ss: &[Stmt]) -> bool
    ensures { result ≡ classes.has_predicate (stmts (map stmt_of ss.now)) }
{
    let mut so = false;
    for s in ss {
        so = so || is_predicate(s);
    }
    so
}

/// Whether a statement stands after the last predicate: 1 if one does, else 0.
#[tactic(auto, using(crate::proofs::Marking::since_laws))]
pub fn since_predicate(ss: &[Stmt]) -> u32
    ensures { result ≡ at_most_one (classes.since_predicate 0 (stmts (map stmt_of ss.now))) }
{
    let mut so = 0;
    for s in ss {
        so = if is_predicate(s) { 0 } else { 1 };
    }
    so
}
