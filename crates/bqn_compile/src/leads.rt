//! The lead of a piece of a tree: the place of its first leaf in text order.

ghost use Rattle.std.specs.Prelude.{◌≡◌, map};
ghost use Rattle.std.specs.Option.{option_map};
ghost use Rattle.bqn_syntax.specs.blocks.Leads as lead;
ghost use Rattle.bqn_syntax.specs.grammar.Trees.{expr_of, part_of, step_of, derived_of, use_of, stmt_of, pattern_of, header_of, exprs as plain_exprs, parts as plain_parts, steps as plain_steps, deriveds as plain_deriveds, uses as plain_uses, patterns as plain_patterns};

use bqn_base::Place;
use bqn_syntax::{Arrow, Derived, Expr, Header, ModUse, Part, Pattern, Step, Stmt, Token};

/// The place that is there, or the one that is passed inward.
pub fn or_else(inherited: Place, own: Option<Place>) -> Place
    ensures { result ≡ lead.or_else inherited own }
{
    match own {
        None => inherited,
        Some(p) => p,
    }
}

/// The first, or where it has none the next.
pub fn or_next(first: Option<Place>, next: Option<Place>) -> Option<Place>
    ensures { result ≡ lead.or_next first next }
{
    match first {
        None => next,
        Some(p) => Some(p),
    }
}

#[cycle(pattern_lead)]
#[tactic(auto, using(bqn_syntax::specs::grammar::TreeEquations::tree_equations))]
pub fn pattern(q: &Pattern) -> Option<Place>
    ensures { result ≡ lead.pattern_lead (pattern_of q.now) }
{
    match q {
        Pattern::Name(t) | Pattern::Literal(t) => Some(t.place),
        Pattern::Skip(place) => Some(*place),
        Pattern::List(all) => patterns(all.list()),
        Pattern::Strand(all) => patterns(all.list()),
    }
}

#[cycle(pattern_lead)]
#[tactic(auto, using(bqn_syntax::specs::grammar::TreeEquations::tree_equations))]
fn patterns(all: &[Pattern]) -> Option<Place>
    ensures { result ≡ lead.patterns_lead (plain_patterns (map pattern_of all.now)) }
{
    for q in all {
        if let Some(p) = pattern(q) {
            return Some(p);
        }
    }
    None
}

pub fn tokens(all: &[Token]) -> Option<Place>
    ensures { result ≡ lead.tokens_lead all.now }
{
    match all.first() {
        None => None,
        Some(t) => Some(t.place),
    }
}

pub fn targets(all: &[(Token, Arrow)]) -> Option<Place>
    ensures { result ≡ lead.targets_lead all.now }
{
    match all.first() {
        None => None,
        Some(t) => Some(t.0.place),
    }
}

#[cycle(leads)]
#[tactic(auto, using(bqn_syntax::specs::grammar::TreeEquations::tree_equations))]
fn expr(e: &Expr) -> Option<Place>
    ensures { result ≡ lead.expr_lead (expr_of e.now) }
{
    match e {
        Expr::Value { last, steps: all } => match steps(all.list()) {
            Some(p) => Some(p),
            None => match last {
                None => None,
                Some(x) => part(x),
            },
        },
        Expr::Train {
            targets: names,
            parts: train,
        } => match targets(names.list()) {
            Some(p) => Some(p),
            None => deriveds(train.list()),
        },
        Expr::Modifier {
            targets: names,
            part: x,
        } => match targets(names.list()) {
            Some(p) => Some(p),
            None => part(x),
        },
    }
}

#[cycle(leads)]
#[tactic(auto, using(bqn_syntax::specs::grammar::TreeEquations::tree_equations))]
pub fn part(x: &Part) -> Option<Place>
    ensures { result ≡ lead.part_lead (part_of x.now) }
{
    match x {
        Part::Leaf(t) => Some(t.place),
        Part::List(all) => exprs(all.list()),
        Part::Merge(all) => exprs(all.list()),
        Part::Paren(e) => expr(e.get()),
        Part::Block(b) => {
            let b = b.get();
            Some(b.place)
        }
        Part::Field { base, names } => match part(base.get()) {
            Some(p) => Some(p),
            None => tokens(names.list()),
        },
        Part::Strand(all) => parts(all.list()),
        Part::Nothing(place) => Some(*place),
    }
}

/// Of the steps the last stands first.
#[cycle(leads)]
#[tactic(auto, using(bqn_syntax::specs::grammar::TreeEquations::tree_equations))]
fn steps(all: &[Step]) -> Option<Place>
    ensures { result ≡ lead.steps_lead (plain_steps (map step_of all.now)) }
{
    for s in all.iter().rev() {
        if let Some(p) = step(s) {
            return Some(p);
        }
    }
    None
}

#[cycle(leads)]
#[tactic(auto, using(bqn_syntax::specs::grammar::TreeEquations::tree_equations))]
fn step(s: &Step) -> Option<Place>
    ensures { result ≡ lead.step_lead (step_of s.now) }
{
    match s {
        Step::Apply { function, left } => match left {
            None => derived(function),
            Some(x) => match part(x) {
                Some(p) => Some(p),
                None => derived(function),
            },
        },
        Step::Assign { target, arrow: _ } => pattern(target),
        Step::Modify {
            target,
            function: _,
        } => Some(target.place),
    }
}

#[cycle(leads)]
#[tactic(auto, using(bqn_syntax::specs::grammar::TreeEquations::tree_equations))]
fn derived(d: &Derived) -> Option<Place>
    ensures { result ≡ lead.derived_lead (derived_of d.now) }
{
    match part(&d.first) {
        Some(p) => Some(p),
        None => mod_uses(d.uses.list()),
    }
}

#[cycle(leads)]
#[tactic(auto, using(bqn_syntax::specs::grammar::TreeEquations::tree_equations))]
fn mod_uses(all: &[ModUse]) -> Option<Place>
    ensures { result ≡ lead.uses_lead (plain_uses (map use_of all.now)) }
{
    for u in all {
        if let Some(p) = mod_use(u) {
            return Some(p);
        }
    }
    None
}

#[cycle(leads)]
#[tactic(auto, using(bqn_syntax::specs::grammar::TreeEquations::tree_equations))]
fn mod_use(u: &ModUse) -> Option<Place>
    ensures { result ≡ lead.use_lead (use_of u.now) }
{
    match u {
        ModUse::One(m) => part(m),
        ModUse::Two(m, x) => match part(m) {
            Some(p) => Some(p),
            None => part(x),
        },
    }
}

#[cycle(leads)]
#[tactic(auto, using(bqn_syntax::specs::grammar::TreeEquations::tree_equations))]
fn deriveds(all: &[Derived]) -> Option<Place>
    ensures { result ≡ lead.deriveds_lead (plain_deriveds (map derived_of all.now)) }
{
    for d in all {
        if let Some(p) = derived(d) {
            return Some(p);
        }
    }
    None
}

#[cycle(leads)]
#[tactic(auto, using(bqn_syntax::specs::grammar::TreeEquations::tree_equations))]
fn exprs(all: &[Expr]) -> Option<Place>
    ensures { result ≡ lead.exprs_lead (plain_exprs (map expr_of all.now)) }
{
    for e in all {
        if let Some(p) = expr(e) {
            return Some(p);
        }
    }
    None
}

#[cycle(leads)]
#[tactic(auto, using(bqn_syntax::specs::grammar::TreeEquations::tree_equations))]
fn parts(all: &[Part]) -> Option<Place>
    ensures { result ≡ lead.parts_lead (plain_parts (map part_of all.now)) }
{
    for x in all {
        if let Some(p) = part(x) {
            return Some(p);
        }
    }
    None
}

/// The lead of a statement; one without a leaf has none.
#[tactic(auto, using(bqn_syntax::specs::grammar::TreeEquations::tree_equations))]
pub fn statement(s: &Stmt) -> Place
    ensures { result ≡ lead.stmt_lead (stmt_of s.now) }
{
    let own = match s {
        Stmt::Eval(e) | Stmt::Predicate(e) => expr(e),
        Stmt::Export(q) => pattern(q),
    };
    or_else(Place { line: 0, column: 0 }, own)
}

/// The lead of a header, in the order of the text.
#[tactic(auto, using(bqn_syntax::specs::grammar::TreeEquations::tree_equations))]
pub fn header(h: &Header) -> Place
    ensures { result ≡ lead.header_lead (header_of h.now) }
{
    let left = match &h.left {
        None => None,
        Some(q) => pattern(q),
    };
    match left {
        Some(p) => p,
        None => match &h.left_operand {
            Some(t) => t.place,
            None => h.own.place,
        },
    }
}
