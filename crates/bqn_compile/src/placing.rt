//! The places of the instructions of a body, in a walk of its own. Each part gives its lead as well,
//! so that nothing is gone through again for the lead of what is around it.

ghost use Rattle.std.specs.Prelude.{◌≡◌, ◌++◌, ◌∷◌, [], false, Some, IfOk, OnOk, map};
ghost use Rattle.std.specs.Option.{option_map};
ghost use Rattle.bqn_syntax.specs.grammar.Trees.{pattern_of, header_of, Value, none, expr_of, part_of, step_of, derived_of, use_of, stmt_of, stmts as plain_stmts, exprs as plain_exprs, parts as plain_parts, steps as plain_steps, deriveds as plain_deriveds, uses as plain_uses};
ghost use Rattle.bqn_syntax.specs.blocks.Leads as leading;
ghost use Rattle.bqn_syntax.specs.blocks.Leads.{at_start as start, modifier_lead as lead_in};
ghost use Rattle.bqn_compile.specs.Expressions.{and_one as one_more, parts_read};
ghost use Rattle.bqn_compile.specs.Placing as placing;

use crate::leads;
use crate::leads::{or_else, or_next};
use crate::read::Read;
use bqn_base::{Memory, Place};
use bqn_syntax::{Arrow, Derived, Expr, Header, Kind, ModUse, Part, Pattern, Step, Stmt, Token};
use std::alloc::Global;

fn push(out: &mut Vec<Place>, p: Place) -> Result<(), Memory>
    ensures { OnOk result (out.new.items ≡ out.old.items ++ p ∷ []) }
{
    out.push(p)?;
    Ok(())
}

/// A single place, which is the lead of what has it.
fn single(p: Place, out: &mut Vec<Place>) -> Result<Option<Place>, Memory>
    ensures places { OnOk result (out.new.items ≡ out.old.items ++ p ∷ []) }
    ensures own { IfOk result (λ own. own ≡ Some p) }
{
    push(out, p)?;
    Ok(Some(p))
}

fn and_one(read: Read) -> Read
    ensures { result ≡ one_more read }
{
    match read {
        Read::No | Read::Two => Read::One,
        Read::One => Read::Two,
    }
}

#[tactic(auto, using(crate::proofs::Placings::placing_laws))]
fn if_two(p: Place, read: Read, out: &mut Vec<Place>) -> Result<(), Memory>
    ensures { OnOk result (out.new.items ≡ out.old.items ++ placing.if_two p read) }
{
    match read {
        Read::Two => push(out, p)?,
        Read::No | Read::One => {}
    }
    Ok(())
}

#[tactic(auto, using(crate::proofs::Placings::placing_laws))]
fn fields(all: &[Token], out: &mut Vec<Place>) -> Result<(), Memory>
    ensures { OnOk result (out.new.items ≡ out.old.items ++ placing.fields_places all.now) }
{
    for t in all {
        push(out, t.place)?;
    }
    Ok(())
}

#[tactic(auto, using(bqn_syntax::specs::grammar::TreeEquations::tree_equations))]
fn modifier_lead(u: &ModUse) -> Option<Place>
    ensures { result ≡ lead_in (use_of u.now) }
{
    match u {
        ModUse::One(m) => leads::part(m),
        ModUse::Two(m, _) => leads::part(m),
    }
}

#[tactic(auto, using(bqn_syntax::specs::grammar::TreeEquations::tree_equations, crate::proofs::Placings::placing_laws))]
fn derives(lead: Place, all: &[ModUse], out: &mut Vec<Place>) -> Result<(), Memory>
    ensures { OnOk result (out.new.items ≡ out.old.items ++ placing.derives_places lead (plain_uses (map use_of all.now))) }
{
    for u in all {
        push(out, or_else(lead, modifier_lead(u)))?;
    }
    Ok(())
}

#[cycle(placing)]
#[tactic(auto, using(bqn_syntax::specs::grammar::TreeEquations::tree_equations, crate::proofs::Placings::placing_laws))]
fn part(lead: Place, x: &Part, out: &mut Vec<Place>) -> Result<Option<Place>, Memory>
    ensures places { OnOk result (out.new.items ≡ out.old.items ++ placing.part_places lead (part_of x.now)) }
    ensures own { IfOk result (λ own. own ≡ leading.part_lead (part_of x.now)) }
{
    match x {
        Part::Leaf(t) => single(t.place, out),
        Part::List(all) => {
            let own = exprs(lead, all.list(), out)?;
            push(out, or_else(lead, own))?;
            Ok(own)
        }
        Part::Merge(all) => {
            let own = exprs(lead, all.list(), out)?;
            let place = or_else(lead, own);
            push(out, place)?;
            push(out, place)?;
            push(out, place)?;
            Ok(own)
        }
        Part::Paren(e) => expr(lead, e.get(), out),
        Part::Block(b) => {
            let b = b.get();
            single(b.place, out)
        }
        Part::Field { base, names } => {
            let own = part(lead, base.get(), out)?;
            fields(names.list(), out)?;
            Ok(or_next(own, leads::tokens(names.list())))
        }
        Part::Strand(all) => {
            let own = parts(lead, all.list(), out)?;
            push(out, or_else(lead, own))?;
            Ok(own)
        }
        Part::Nothing(place) => single(*place, out),
    }
}

/// A part by itself has its own places alone.
#[cycle(placing)]
#[tactic(auto, using(bqn_syntax::specs::grammar::TreeEquations::tree_equations, crate::proofs::Placings::placing_laws))]
fn expr(lead: Place, e: &Expr, out: &mut Vec<Place>) -> Result<Option<Place>, Memory>
    ensures places { OnOk result (out.new.items ≡ out.old.items ++ placing.expr_places lead (expr_of e.now)) }
    ensures own { IfOk result (λ own. own ≡ leading.expr_lead (expr_of e.now)) }
{
    if let Expr::Value {
        last: Some(x),
        steps: all,
    } = e
    {
        if all.list().is_empty() {
            return part(lead, x, out);
        }
    }
    longer(lead, e, out)
}

#[cycle(placing)]
#[tactic(auto, using(bqn_syntax::specs::grammar::TreeEquations::tree_equations, crate::proofs::Placings::placing_laws))]
fn longer(lead: Place, e: &Expr, out: &mut Vec<Place>) -> Result<Option<Place>, Memory>
    ensures places { OnOk result (out.new.items ≡ out.old.items ++ placing.expr_places lead (expr_of e.now)) }
    ensures own { IfOk result (λ own. own ≡ leading.expr_lead (expr_of e.now)) }
{
    match e {
        Expr::Value { last, steps: all } => match last {
            None => unstarted(lead, all.list(), out),
            Some(x) => {
                let own = part(lead, x, out)?;
                let first = steps(lead, all.list(), out)?;
                Ok(or_next(first, own))
            }
        },
        Expr::Train {
            targets: names,
            parts: train,
        } => {
            let (own, read) = deriveds(lead, train.list(), out)?;
            if_two(or_else(lead, own), read, out)?;
            targets(names.list(), out)?;
            Ok(or_next(leads::targets(names.list()), own))
        }
        Expr::Modifier {
            targets: names,
            part: x,
        } => {
            let own = part(lead, x, out)?;
            targets(names.list(), out)?;
            Ok(or_next(leads::targets(names.list()), own))
        }
    }
}

/// The rightmost target is stored first.
#[tactic(auto, using(crate::proofs::Placings::placing_laws))]
fn targets(all: &[(Token, Arrow)], out: &mut Vec<Place>) -> Result<(), Memory>
    ensures { OnOk result (out.new.items ≡ out.old.items ++ placing.targets_places all.now) }
{
    for t in all.iter().rev() {
        push(out, t.0.place)?;
    }
    Ok(())
}

#[cycle(placing)]
#[tactic(auto, using(bqn_syntax::specs::grammar::TreeEquations::tree_equations, crate::proofs::Placings::placing_laws))]
fn unstarted(lead: Place, all: &[Step], out: &mut Vec<Place>) -> Result<Option<Place>, Memory>
    ensures places { OnOk result (out.new.items ≡ out.old.items ++ placing.expr_places lead (Value none (plain_steps (map step_of all.now)))) }
    ensures own { IfOk result (λ own. own ≡ leading.steps_lead (plain_steps (map step_of all.now))) }
{
    let Some((first, rest)) = all.split_first() else {
        push(out, lead)?;
        return Ok(None);
    };
    match first {
        Step::Modify { target, function } => {
            push(out, target.place)?;
            let own = derived(lead, function, out)?;
            push(out, or_else(lead, own))?;
            push(out, target.place)?;
            let before = steps(lead, rest, out)?;
            Ok(or_next(before, Some(target.place)))
        }
        Step::Apply { .. } => {
            push(out, lead)?;
            steps(lead, all, out)
        }
        Step::Assign { .. } => {
            push(out, lead)?;
            steps(lead, all, out)
        }
    }
}

#[cycle(placing)]
#[tactic(auto, using(bqn_syntax::specs::grammar::TreeEquations::tree_equations, crate::proofs::Placings::placing_laws))]
fn steps(lead: Place, all: &[Step], out: &mut Vec<Place>) -> Result<Option<Place>, Memory>
    ensures places { OnOk result (out.new.items ≡ out.old.items ++ placing.steps_places lead (plain_steps (map step_of all.now))) }
    ensures own { IfOk result (λ own. own ≡ leading.steps_lead (plain_steps (map step_of all.now))) }
{
    let mut own = None;
    for s in all {
        own = or_next(step(lead, s, out)?, own);
    }
    Ok(own)
}

#[cycle(placing)]
#[tactic(auto, using(bqn_syntax::specs::grammar::TreeEquations::tree_equations, crate::proofs::Placings::placing_laws))]
fn step(lead: Place, s: &Step, out: &mut Vec<Place>) -> Result<Option<Place>, Memory>
    ensures places { OnOk result (out.new.items ≡ out.old.items ++ placing.step_places lead (step_of s.now)) }
    ensures own { IfOk result (λ own. own ≡ leading.step_lead (step_of s.now)) }
{
    match s {
        Step::Apply { function, left } => {
            let called = derived(lead, function, out)?;
            let first = match left {
                None => None,
                Some(w) => part(lead, w, out)?,
            };
            push(out, or_else(lead, called))?;
            Ok(or_next(first, called))
        }
        Step::Assign { target, arrow: _ } => {
            let own = leads::pattern(target);
            push(out, or_else(lead, own))?;
            Ok(own)
        }
        Step::Modify { target, function } => {
            let own = derived(lead, function, out)?;
            push(out, target.place)?;
            push(out, or_else(lead, own))?;
            push(out, target.place)?;
            Ok(Some(target.place))
        }
    }
}

#[cycle(placing)]
#[tactic(auto, using(bqn_syntax::specs::grammar::TreeEquations::tree_equations, crate::proofs::Placings::placing_laws))]
fn derived(lead: Place, d: &Derived, out: &mut Vec<Place>) -> Result<Option<Place>, Memory>
    ensures places { OnOk result (out.new.items ≡ out.old.items ++ placing.derived_places lead (derived_of d.now)) }
    ensures own { IfOk result (λ own. own ≡ leading.derived_lead (derived_of d.now)) }
{
    let all = d.uses.list();
    if all.is_empty() {
        return part(lead, &d.first, out);
    }
    let after = mod_uses(lead, all, out)?;
    let own = part(lead, &d.first, out)?;
    derives(lead, all, out)?;
    Ok(or_next(own, after))
}

/// The last modifier is the outermost.
#[cycle(placing)]
#[tactic(auto, using(bqn_syntax::specs::grammar::TreeEquations::tree_equations, crate::proofs::Placings::placing_laws))]
fn mod_uses(lead: Place, all: &[ModUse], out: &mut Vec<Place>) -> Result<Option<Place>, Memory>
    ensures places { OnOk result (out.new.items ≡ out.old.items ++ placing.uses_places lead (plain_uses (map use_of all.now))) }
    ensures own { IfOk result (λ own. own ≡ leading.uses_lead (plain_uses (map use_of all.now))) }
{
    let mut own = None;
    for u in all.iter().rev() {
        own = or_next(mod_use(lead, u, out)?, own);
    }
    Ok(own)
}

#[cycle(placing)]
#[tactic(auto, using(bqn_syntax::specs::grammar::TreeEquations::tree_equations, crate::proofs::Placings::placing_laws))]
fn mod_use(lead: Place, u: &ModUse, out: &mut Vec<Place>) -> Result<Option<Place>, Memory>
    ensures places { OnOk result (out.new.items ≡ out.old.items ++ placing.use_places lead (use_of u.now)) }
    ensures own { IfOk result (λ own. own ≡ leading.use_lead (use_of u.now)) }
{
    match u {
        ModUse::One(m) => part(lead, m, out),
        ModUse::Two(m, x) => {
            let after = part(lead, x, out)?;
            let own = part(lead, m, out)?;
            Ok(or_next(own, after))
        }
    }
}

/// The parts of a train from the right; the lead of all, and what they are read as.
#[cycle(placing)]
#[tactic(auto, using(bqn_syntax::specs::grammar::TreeEquations::tree_equations, crate::proofs::Placings::placing_laws))]
fn deriveds(
    lead: Place,
    all: &[Derived],
    out: &mut Vec<Place>,
) -> Result<(Option<Place>, Read), Memory>
    ensures places { OnOk result (out.new.items ≡ out.old.items ++ placing.deriveds_places lead (plain_deriveds (map derived_of all.now))) }
    ensures own { IfOk result (λ r. r.0 ≡ leading.deriveds_lead (plain_deriveds (map derived_of all.now))) }
    ensures read { IfOk result (λ r. r.1 ≡ parts_read (plain_deriveds (map derived_of all.now))) }
{
    let mut own = None;
    let mut read = Read::No;
    for d in all.iter().rev() {
        let first = derived(lead, d, out)?;
        if_two(or_else(lead, first), read, out)?;
        own = or_next(first, own);
        read = and_one(read);
    }
    Ok((own, read))
}

#[cycle(placing)]
#[tactic(auto, using(bqn_syntax::specs::grammar::TreeEquations::tree_equations, crate::proofs::Placings::placing_laws))]
fn exprs(lead: Place, all: &[Expr], out: &mut Vec<Place>) -> Result<Option<Place>, Memory>
    ensures places { OnOk result (out.new.items ≡ out.old.items ++ placing.exprs_places lead (plain_exprs (map expr_of all.now))) }
    ensures own { IfOk result (λ own. own ≡ leading.exprs_lead (plain_exprs (map expr_of all.now))) }
{
    let mut own = None;
    for e in all {
        own = or_next(own, expr(lead, e, out)?);
    }
    Ok(own)
}

#[cycle(placing)]
#[tactic(auto, using(bqn_syntax::specs::grammar::TreeEquations::tree_equations, crate::proofs::Placings::placing_laws))]
fn parts(lead: Place, all: &[Part], out: &mut Vec<Place>) -> Result<Option<Place>, Memory>
    ensures places { OnOk result (out.new.items ≡ out.old.items ++ placing.parts_places lead (plain_parts (map part_of all.now))) }
    ensures own { IfOk result (λ own. own ≡ leading.parts_lead (plain_parts (map part_of all.now))) }
{
    let mut own = None;
    for x in all {
        own = or_next(own, part(lead, x, out)?);
    }
    Ok(own)
}

#[tactic(auto, using(bqn_syntax::specs::grammar::TreeEquations::tree_equations, crate::proofs::Placings::placing_laws))]
fn matched(place: Place, out: &mut Vec<Place>) -> Result<(), Memory>
    ensures { OnOk result (out.new.items ≡ out.old.items ++ place ∷ place ∷ []) }
{
    push(out, place)?;
    push(out, place)
}

#[tactic(auto, using(bqn_syntax::specs::grammar::TreeEquations::tree_equations, crate::proofs::Placings::placing_laws))]
fn argument(lead: Place, q: &Option<Pattern>, out: &mut Vec<Place>) -> Result<(), Memory>
    ensures { OnOk result (out.new.items ≡ out.old.items ++ placing.argument_places lead (option_map pattern_of q.now)) }
{
    let Some(q) = q else {
        return Ok(());
    };
    match q {
        Pattern::Name(t) => match t.kind {
            Kind::Special(_, _) => Ok(()),
            _ => matched(t.place, out),
        },
        Pattern::Skip(_) | Pattern::Literal(_) => matched(or_else(lead, leads::pattern(q)), out),
        Pattern::List(_) | Pattern::Strand(_) => matched(or_else(lead, leads::pattern(q)), out),
    }
}

#[tactic(auto, using(crate::proofs::Placings::placing_laws))]
fn name(t: &Token, out: &mut Vec<Place>) -> Result<(), Memory>
    ensures { OnOk result (out.new.items ≡ out.old.items ++ placing.name_places t.now.place t.now.kind) }
{
    let Kind::Word(_, _) = t.kind else {
        return Ok(());
    };
    push(out, t.place)?;
    push(out, t.place)?;
    push(out, t.place)
}

#[tactic(auto, using(crate::proofs::Placings::placing_laws))]
fn operand(t: &Option<Token>, out: &mut Vec<Place>) -> Result<(), Memory>
    ensures { OnOk result (out.new.items ≡ out.old.items ++ placing.operand_places t.now) }
{
    match t {
        None => Ok(()),
        Some(t) => name(t, out),
    }
}

#[tactic(auto, using(bqn_syntax::specs::grammar::TreeEquations::tree_equations, crate::proofs::Placings::placing_laws))]
fn header(h: &Option<Header>, out: &mut Vec<Place>) -> Result<(), Memory>
    ensures { OnOk result (out.new.items ≡ out.old.items ++ placing.header_places (option_map header_of h.now)) }
{
    let Some(h) = h else {
        return Ok(());
    };
    let lead = leads::header(h);
    argument(lead, &h.left, out)?;
    operand(&h.left_operand, out)?;
    name(&h.own, out)?;
    operand(&h.right_operand, out)?;
    argument(lead, &h.right, out)
}

fn dropped(left: bool, place: Place, out: &mut Vec<Place>) -> Result<(), Memory>
    ensures { OnOk result (out.new.items ≡ out.old.items ++ placing.drop_places left place) }
{
    if left { push(out, place) } else { Ok(()) }
}

#[tactic(auto, using(crate::proofs::Placings::placing_laws))]
fn end(exports: bool, left: bool, place: Place, out: &mut Vec<Place>) -> Result<(), Memory>
    ensures { OnOk result (out.new.items ≡ out.old.items ++ placing.ending_places exports left place) }
{
    if exports == left {
        matched(place, out)
    } else {
        push(out, place)
    }
}

/// What a statement has by itself; whether it leaves a value.
#[tactic(auto, using(bqn_syntax::specs::grammar::TreeEquations::tree_equations, crate::proofs::Placings::placing_laws))]
fn statement(lead: Place, s: &Stmt, out: &mut Vec<Place>) -> Result<bool, Memory>
    ensures places { OnOk result (out.new.items ≡ out.old.items ++ placing.own_places lead (stmt_of s.now)) }
    ensures leaves { IfOk result (λ b. b ≡ placing.leaves_one (stmt_of s.now)) }
{
    match s {
        Stmt::Eval(e) => {
            longer(lead, e, out)?;
            Ok(true)
        }
        Stmt::Predicate(e) => {
            longer(lead, e, out)?;
            push(out, lead)?;
            Ok(false)
        }
        Stmt::Export(_) => Ok(false),
    }
}

#[tactic(auto, using(bqn_syntax::specs::grammar::TreeEquations::tree_equations, crate::proofs::Placings::placing_laws))]
fn statements(exports: bool, all: &[Stmt], out: &mut Vec<Place>) -> Result<(), Memory>
    ensures { OnOk result (out.new.items ≡ out.old.items ++ placing.rest_places exports false start (plain_stmts (map stmt_of all.now))) }
{
    let mut left = false;
    let mut lead = Place { line: 1, column: 1 };
    for s in all {
        dropped(left, lead, out)?;
        lead = leads::statement(s);
        left = statement(lead, s, out)?;
    }
    end(exports, left, lead, out)
}

/// The places of a body that has so many instructions.
pub fn body(
    alloc: Global,
    many: usize,
    exports: bool,
    h: &Option<Header>,
    all: &[Stmt],
) -> Result<Vec<Place>, Memory>
    ensures { IfOk result (λ out. out.items ≡
        placing.header_places (option_map header_of h.now) ++ placing.rest_places exports false start (plain_stmts (map stmt_of all.now))) }
{
    let mut out = Vec::with_capacity(alloc, many)?;
    header(h, &mut out)?;
    statements(exports, all, &mut out)?;
    Ok(out)
}
