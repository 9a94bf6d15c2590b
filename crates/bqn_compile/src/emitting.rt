//! The code of expressions, statements and bodies, in one walk through the text.

ghost use Rattle.std.specs.Prelude.{◌≡◌, false, IfOk, OnOk, map, slice_get};
ghost use Rattle.std.specs.Option.{option_map};
ghost use Rattle.bqn_syntax.specs.blocks.Blocks.{plain_in};
ghost use Rattle.bqn_syntax.specs.blocks.Exporting.{stmts_export};
ghost use Rattle.bqn_syntax.specs.grammar.Trees.{Value, none, body as body_tree, expr_of, part_of, step_of, derived_of, use_of, stmt_of, block_of, body_of, header_of, exprs as plain_exprs, parts as plain_parts, steps as plain_steps, deriveds as plain_deriveds, uses as plain_uses, stmts as plain_stmts, bodies as plain_bodies};
ghost use Rattle.bqn_compile.specs.Blocks.{bodies_code};
ghost use Rattle.bqn_compile.specs.Bodies.{names_in};
ghost use Rattle.bqn_compile.specs.Walking.{bodies_behind, body_behind, block_walk, body_made, derived_walk, deriveds_walk, expr_behind, expr_walk, leaves_value, list_walk, names_of, onward, part_behind, part_walk, setting_of, step_walk, steps_walk, stmt_behind, stmts_behind, strand_walk, use_walk, uses_walk, walked};

use crate::body_kinds::{and_plain, has_predicate, kind, plain_among};
use crate::body_names::own_names;
use crate::count::one_block;
use crate::header::header;
use crate::parts::{atop, derive, fields, fork};
use crate::places::{fill, reserve};
use crate::read::Read;
use crate::walk::{
    Known, Walk, drop_value, end, length, load_here, push, skip, store_here, target, targets,
    token, turn,
};
use crate::{counting, exporting, leaf, placing};
use bqn_base::{Memory, Row};
use bqn_code::{Body, Instr};
use bqn_syntax::{Arrow, BlockTree, BodyTree, Derived, Expr, Header, ModUse, Part, Step, Stmt};
use std::mem;

/// The code of `>`, which merges the list of `[..]`.
const MERGE: u8 = 13;

#[cycle(emit)]
#[tactic(auto, using(bqn_syntax::specs::grammar::TreeEquations::tree_equations, crate::proofs::Walks::walk_laws))]
fn expr(known: &Known, inside: u32, e: &Expr, out: &mut Walk) -> Result<(), Memory>
    ensures { OnOk result (walked out.new ≡ expr_walk (setting_of known.now) (names_of known.now) inside (expr_of e.now) (walked out.old)) }
{
    match e {
        Expr::Value { last, steps: all } => match last {
            None => unstarted(known, inside, all.list(), out),
            Some(right) => {
                steps(known, inside, all.list(), out)?;
                part(known, inside, right, out)
            }
        },
        Expr::Train {
            targets: names,
            parts: train,
        } => {
            targets(known, names.list(), out)?;
            atop(Read::of(train.list().len()), out)?;
            deriveds(known, inside, train.list(), out)
        }
        Expr::Modifier {
            targets: names,
            part: x,
        } => {
            targets(known, names.list(), out)?;
            part(known, inside, x, out)
        }
    }
}

/// A value without a part at its end.
#[cycle(emit)]
#[tactic(auto, using(bqn_syntax::specs::grammar::TreeEquations::tree_equations, crate::proofs::Walks::walk_laws))]
fn unstarted(known: &Known, inside: u32, all: &[Step], out: &mut Walk) -> Result<(), Memory>
    ensures { OnOk result (walked out.new ≡
        expr_walk (setting_of known.now) (names_of known.now) inside (Value none (plain_steps (map step_of all.now))) (walked out.old)) }
{
    let Some((first, rest)) = all.split_first() else {
        return push(out, Instr::Nothing);
    };
    match first {
        Step::Modify {
            target: t,
            function,
        } => {
            steps(known, inside, rest, out)?;
            let argument = load_here(known, out)?;
            let storing = store_here(known, Arrow::Change, out)?;
            push(out, storing)?;
            push(out, Instr::Call1)?;
            skip(out, counting::token(t))?;
            derived(known, inside, function, out)?;
            push(out, argument)
        }
        Step::Apply { .. } => {
            steps(known, inside, all, out)?;
            push(out, Instr::Nothing)
        }
        Step::Assign { .. } => {
            steps(known, inside, all, out)?;
            push(out, Instr::Nothing)
        }
    }
}

#[cycle(emit)]
#[tactic(auto, using(bqn_syntax::specs::grammar::TreeEquations::tree_equations, crate::proofs::Walks::walk_laws))]
fn part(known: &Known, inside: u32, x: &Part, out: &mut Walk) -> Result<(), Memory>
    ensures { OnOk result (walked out.new ≡ part_walk (setting_of known.now) (names_of known.now) inside (part_of x.now) (walked out.old)) }
{
    match x {
        Part::Leaf(t) => token(known, t, out),
        Part::List(all) => list(known, inside, all.list(), out),
        Part::Merge(all) => {
            push(out, Instr::Call1)?;
            push(out, Instr::Given(MERGE))?;
            list(known, inside, all.list(), out)
        }
        Part::Paren(e) => expr(known, inside, e.get(), out),
        Part::Block(b) => block(known, inside, b.get(), out),
        Part::Field { base, names } => {
            fields(known, names.list(), out)?;
            part(known, inside, base.get(), out)
        }
        Part::Strand(all) => strand(known, inside, all.list(), out),
        Part::Nothing(_) => push(out, Instr::Nothing),
    }
}

/// The elements of a list are evaluated from left to right, each of them from right to left.
#[cycle(emit)]
#[tactic(auto, using(bqn_syntax::specs::grammar::TreeEquations::tree_equations, crate::proofs::Walks::walk_laws))]
fn list(known: &Known, inside: u32, all: &[Expr], out: &mut Walk) -> Result<(), Memory>
    ensures { OnOk result (walked out.new ≡ list_walk (setting_of known.now) (names_of known.now) inside (plain_exprs (map expr_of all.now)) (walked out.old)) }
{
    push(out, Instr::List(length(all)?))?;
    let from = out.code.len();
    for e in all {
        forward(known, inside, e, out)?;
    }
    turn(out, from);
    Ok(())
}

#[cycle(emit)]
#[tactic(auto, using(bqn_syntax::specs::grammar::TreeEquations::tree_equations, crate::proofs::Walks::walk_laws))]
fn strand(known: &Known, inside: u32, all: &[Part], out: &mut Walk) -> Result<(), Memory>
    ensures { OnOk result (walked out.new ≡
        strand_walk (setting_of known.now) (names_of known.now) inside (plain_parts (map part_of all.now)) (walked out.old)) }
{
    push(out, Instr::List(length(all)?))?;
    let from = out.code.len();
    for x in all {
        forward_part(known, inside, x, out)?;
    }
    turn(out, from);
    Ok(())
}

/// An expression whose code is done behind what is pushed.
#[cycle(emit)]
#[tactic(auto, using(bqn_syntax::specs::grammar::TreeEquations::tree_equations, crate::proofs::Walks::walk_laws))]
fn forward(known: &Known, inside: u32, e: &Expr, out: &mut Walk) -> Result<(), Memory>
    ensures { OnOk result (onward out.new ≡ expr_behind (setting_of known.now) (names_of known.now) inside (expr_of e.now) (onward out.old)) }
{
    let from = out.code.len();
    expr(known, inside, e, out)?;
    turn(out, from);
    Ok(())
}

#[cycle(emit)]
#[tactic(auto, using(bqn_syntax::specs::grammar::TreeEquations::tree_equations, crate::proofs::Walks::walk_laws))]
fn forward_part(known: &Known, inside: u32, x: &Part, out: &mut Walk) -> Result<(), Memory>
    ensures { OnOk result (onward out.new ≡ part_behind (setting_of known.now) (names_of known.now) inside (part_of x.now) (onward out.old)) }
{
    let from = out.code.len();
    part(known, inside, x, out)?;
    turn(out, from);
    Ok(())
}

/// The steps stand in the text from the last to the first.
#[cycle(emit)]
#[tactic(auto, using(bqn_syntax::specs::grammar::TreeEquations::tree_equations, crate::proofs::Walks::walk_laws))]
fn steps(known: &Known, inside: u32, all: &[Step], out: &mut Walk) -> Result<(), Memory>
    ensures { OnOk result (walked out.new ≡
        steps_walk (setting_of known.now) (names_of known.now) inside (plain_steps (map step_of all.now)) (walked out.old)) }
{
    for s in all.iter().rev() {
        step(known, inside, s, out)?;
    }
    Ok(())
}

#[cycle(emit)]
#[tactic(auto, using(bqn_syntax::specs::grammar::TreeEquations::tree_equations, crate::proofs::Walks::walk_laws))]
fn step(known: &Known, inside: u32, s: &Step, out: &mut Walk) -> Result<(), Memory>
    ensures { OnOk result (walked out.new ≡ step_walk (setting_of known.now) (names_of known.now) inside (step_of s.now) (walked out.old)) }
{
    match s {
        Step::Apply { function, left } => {
            match left {
                None => push(out, Instr::Call1)?,
                Some(w) => {
                    push(out, Instr::Call2)?;
                    part(known, inside, w, out)?;
                }
            }
            derived(known, inside, function, out)
        }
        Step::Assign { target: q, arrow } => target(known, q, *arrow, out),
        Step::Modify {
            target: t,
            function,
        } => {
            let reading = load_here(known, out)?;
            let storing = store_here(known, Arrow::Change, out)?;
            push(out, storing)?;
            push(out, Instr::Call2)?;
            push(out, reading)?;
            skip(out, counting::token(t))?;
            derived(known, inside, function, out)
        }
    }
}

#[cycle(emit)]
#[tactic(auto, using(bqn_syntax::specs::grammar::TreeEquations::tree_equations, crate::proofs::Walks::walk_laws))]
fn derived(known: &Known, inside: u32, d: &Derived, out: &mut Walk) -> Result<(), Memory>
    ensures { OnOk result (walked out.new ≡ derived_walk (setting_of known.now) (names_of known.now) inside (derived_of d.now) (walked out.old)) }
{
    derive(d.uses.list(), out)?;
    part(known, inside, &d.first, out)?;
    mod_uses(known, inside, d.uses.list(), out)
}

#[cycle(emit)]
#[tactic(auto, using(bqn_syntax::specs::grammar::TreeEquations::tree_equations, crate::proofs::Walks::walk_laws))]
fn mod_uses(known: &Known, inside: u32, all: &[ModUse], out: &mut Walk) -> Result<(), Memory>
    ensures { OnOk result (walked out.new ≡ uses_walk (setting_of known.now) (names_of known.now) inside (plain_uses (map use_of all.now)) (walked out.old)) }
{
    for u in all {
        mod_use(known, inside, u, out)?;
    }
    Ok(())
}

#[cycle(emit)]
#[tactic(auto, using(bqn_syntax::specs::grammar::TreeEquations::tree_equations, crate::proofs::Walks::walk_laws))]
fn mod_use(known: &Known, inside: u32, u: &ModUse, out: &mut Walk) -> Result<(), Memory>
    ensures { OnOk result (walked out.new ≡ use_walk (setting_of known.now) (names_of known.now) inside (use_of u.now) (walked out.old)) }
{
    match u {
        ModUse::One(m) => part(known, inside, m, out),
        ModUse::Two(m, x) => {
            part(known, inside, m, out)?;
            part(known, inside, x, out)
        }
    }
}

/// The parts of a train, and what is made of them as they are read from the right.
#[cycle(emit)]
#[tactic(auto, using(bqn_syntax::specs::grammar::TreeEquations::tree_equations, crate::proofs::Walks::walk_laws))]
fn deriveds(known: &Known, inside: u32, all: &[Derived], out: &mut Walk) -> Result<(), Memory>
    ensures { OnOk result (walked out.new ≡
        deriveds_walk (setting_of known.now) (names_of known.now) inside (plain_deriveds (map derived_of all.now)) (walked out.old)) }
{
    let mut right = all.len();
    for d in all {
        right -= 1;
        fork(Read::of(right), out)?;
        derived(known, inside, d, out)?;
    }
    Ok(())
}

/// A block, which stands before those inside it.
#[cycle(emit)]
#[tactic(auto, using(bqn_syntax::specs::grammar::TreeEquations::tree_equations, crate::proofs::Walks::walk_laws))]
fn block(known: &Known, inside: u32, b: &BlockTree, out: &mut Walk) -> Result<(), Memory>
    ensures { OnOk result (walked out.new ≡ block_walk (setting_of known.now) (names_of known.now) inside (block_of b.now) (walked out.old)) }
{
    let first = out.at.bodies;
    push(out, leaf::block(b.class, out.at.blocks)?)?;
    skip(out, one_block(length(b.bodies.list())?))?;
    let place = reserve(known, b.class, inside, out)?;
    let made = bodies(known, first, b.bodies.list(), out)?;
    fill(out, place, made);
    Ok(())
}

/// The bodies of a block, the first of which has this number.
#[cycle(emit)]
#[tactic(auto, using(bqn_syntax::specs::grammar::TreeEquations::tree_equations, crate::proofs::Walks::walk_laws))]
fn bodies(known: &Known, first: u32, all: &[BodyTree], out: &mut Walk) -> Result<Row<Body>, Memory>
    ensures made { IfOk result (λ r. r ≡
        bodies_code (setting_of known.now) (names_of known.now) (plain_in (plain_bodies (map body_of all.now))) 0 first (onward out.old).at
        (plain_bodies (map body_of all.now))) }
    ensures walk { OnOk result (onward out.new ≡
        bodies_behind (setting_of known.now) (names_of known.now) first (plain_bodies (map body_of all.now)) (onward out.old)) }
{
    let plain = plain_among(all)?;
    let mut made = Vec::new(known.pools.alloc);
    let mut before: u32 = 0;
    let mut number = first;
    for b in all {
        let statements = b.statements.list();
        let kind = kind(plain, before, &b.header, has_predicate(statements));
        let own = body(known, number, kind, &b.header, statements, out)?;
        made.push(own)?;
        let Some(next) = number.checked_add(1) else {
            return Err(Memory);
        };
        number = next;
        before = and_plain(b, before)?;
    }
    Ok(Row::new(made))
}

/// The body with this number and kind.
#[cycle(emit)]
#[tactic(auto, using(bqn_syntax::specs::grammar::TreeEquations::tree_equations, crate::proofs::Walks::walk_laws))]
pub fn body(
    known: &Known,
    number: u32,
    kind: u8,
    h: &Option<Header>,
    all: &[Stmt],
    out: &mut Walk,
) -> Result<Body, Memory>
    ensures made { IfOk result (λ b. b ≡
        body_made (setting_of known.now) (names_in (slice_get (names_of known.now) number)) kind (onward out.old).at
        (body_tree (option_map header_of h.now) (plain_stmts (map stmt_of all.now)))) }
    ensures walk { OnOk result (onward out.new ≡
        body_behind (setting_of known.now) (names_of known.now) number (body_tree (option_map header_of h.now) (plain_stmts (map stmt_of all.now)))
        (onward out.old)) }
{
    let exports = exporting::statements(all);
    let around = mem::replace(&mut out.code, Vec::new(known.pools.alloc));
    header(known, h, out)?;
    statements(known, number, exports, all, out)?;
    let code = mem::replace(&mut out.code, around);
    let places = placing::body(known.pools.alloc, code.len(), exports, h, all)?;
    let own = own_names(known, number)?;
    Ok(Body {
        kind,
        slots: own.0,
        exports: own.1,
        code: Row::new(code),
        places: Row::new(places),
    })
}

/// The statements of the body with this number, and its end.
#[cycle(emit)]
#[tactic(auto, using(bqn_syntax::specs::grammar::TreeEquations::tree_equations, crate::proofs::Walks::walk_laws, crate::proofs::Onward::stmt_laws))]
fn statements(
    known: &Known,
    inside: u32,
    exports: bool,
    all: &[Stmt],
    out: &mut Walk,
) -> Result<(), Memory>
    ensures { OnOk result (onward out.new ≡
        stmts_behind (setting_of known.now) (names_of known.now) inside false exports (plain_stmts (map stmt_of all.now)) (onward out.old)) }
{
    let mut left = false;
    for s in all {
        left = statement(known, inside, left, s, out)?;
    }
    end(exports, left, out)
}

/// A statement behind one that has left a value, or has not; whether it leaves one.
#[cycle(emit)]
#[tactic(auto, using(bqn_syntax::specs::grammar::TreeEquations::tree_equations, crate::proofs::Walks::walk_laws, crate::proofs::Onward::stmt_laws))]
fn statement(
    known: &Known,
    inside: u32,
    left: bool,
    s: &Stmt,
    out: &mut Walk,
) -> Result<bool, Memory>
    ensures leaves { IfOk result (λ leaves. leaves ≡ leaves_value (stmt_of s.now)) }
    ensures walk { OnOk result (onward out.new ≡ stmt_behind (setting_of known.now) (names_of known.now) inside left (stmt_of s.now) (onward out.old)) }
{
    drop_value(left, out)?;
    match s {
        Stmt::Eval(e) => {
            forward(known, inside, e, out)?;
            Ok(true)
        }
        Stmt::Predicate(e) => {
            forward(known, inside, e, out)?;
            push(out, Instr::Check)?;
            Ok(false)
        }
        Stmt::Export(_) => Ok(false),
    }
}
