//! The code of a tree, emitted in order of evaluation: the last part of a value, and then for each
//! step the part left of its function, if there is one, and the call.

ghost use Rattle.std.specs.Prelude.{◌≡◌, Some, map, []};
ghost use Rattle.bqn_syntax.specs.grammar.Trees.{expr_of, part_of, step_of, stmt_of, steps as plain_steps, stmts as plain_stmts};
ghost use Rattle.std.specs.Option.{option_map};
ghost use Rattle.bqn_forms.specs.Form.{number_of as number_in};
ghost use Rattle.bqn_forms.specs.Form.{subject_name as subject_name_in};
ghost use Rattle.bqn_forms.specs.Emission.{expr_emitted, last_step_emitted, leaf_emitted, leaf_instr, name_emitted, part_emitted, progress, step_emitted, steps_emitted, stmt_emitted, stmt_steps_emitted, stmts_emitted, target_emitted};
ghost use Rattle.bqn_forms.specs.Reading.{ReadsAs, spelled};

use crate::code::Instr;
use crate::error::CompileError;
use crate::functions::function_of;
use bqn_base::Role;
use bqn_syntax::{Arrow, Expr, Kind, Part, Pattern, Step, Stmt, Token};
use indexmap::IndexSet;
use std::alloc::Global;

/// The number of a name, if it is defined.
#[tactic(auto, using(crate::proofs::Spelling::name_laws))]
fn number_of(names: &IndexSet<Vec<char>>, name: &[char]) -> Option<usize>
    ensures { result ≡ number_in (spelled names.now.keys) name.now }
{
    names.get_index_of(name)
}

/// The instruction of a part that is a single token.
fn instr_of(names: &IndexSet<Vec<char>>, token: &Token) -> Option<Instr>
    ensures { result ≡ leaf_instr (spelled names.now.keys) token.now.place token.now.kind }
{
    match &token.kind {
        Kind::Number(number) => Some(Instr::Const(*number)),
        Kind::Word(name, Role::Subject) => match number_of(names, name.chars()) {
            Some(number) => Some(Instr::Load(number, token.place)),
            None => None,
        },
        _ => None,
    }
}

fn emit_leaf(
    names: &IndexSet<Vec<char>>,
    token: &Token,
    code: &mut Vec<Instr>,
) -> Result<(), CompileError>
    ensures { ReadsAs (λ done. code.new.items) (leaf_emitted code.old.items (leaf_instr (spelled names.now.keys) token.now.place token.now.kind)) result }
{
    let Some(instr) = instr_of(names, token) else {
        return Err(CompileError::NotYet);
    };
    code.push(instr)?;
    Ok(())
}

#[cycle(emit)]
#[tactic(auto, using(bqn_syntax::specs::grammar::TreeEquations::tree_equations))]
fn emit_part(
    names: &IndexSet<Vec<char>>,
    part: &Part,
    code: &mut Vec<Instr>,
) -> Result<(), CompileError>
    ensures { ReadsAs (λ done. code.new.items) (part_emitted (spelled names.now.keys) code.old.items (part_of part.now)) result }
{
    match part {
        Part::Leaf(token) => emit_leaf(names, token, code),
        Part::Paren(inner) => emit_expr(names, inner.get(), code),
        _ => Err(CompileError::NotYet),
    }
}

#[cycle(emit)]
#[tactic(auto, using(bqn_syntax::specs::grammar::TreeEquations::tree_equations))]
fn emit_expr(
    names: &IndexSet<Vec<char>>,
    expr: &Expr,
    code: &mut Vec<Instr>,
) -> Result<(), CompileError>
    ensures { ReadsAs (λ done. code.new.items) (expr_emitted (spelled names.now.keys) code.old.items (expr_of expr.now)) result }
{
    match expr {
        Expr::Value {
            last: Some(part),
            steps,
        } => {
            emit_part(names, part, code)?;
            emit_steps(names, steps.list(), code)
        }
        _ => Err(CompileError::NotYet),
    }
}

#[cycle(emit)]
#[tactic(auto, using(bqn_syntax::specs::grammar::TreeEquations::tree_equations))]
fn emit_steps(
    names: &IndexSet<Vec<char>>,
    steps: &[Step],
    code: &mut Vec<Instr>,
) -> Result<(), CompileError>
    ensures { ReadsAs (λ done. code.new.items) (steps_emitted (spelled names.now.keys) code.old.items (plain_steps (map step_of steps.now))) result }
{
    for step in steps {
        emit_step(names, step, code)?;
    }
    Ok(())
}

#[cycle(emit)]
#[tactic(auto, using(bqn_syntax::specs::grammar::TreeEquations::tree_equations))]
fn emit_step(
    names: &IndexSet<Vec<char>>,
    step: &Step,
    code: &mut Vec<Instr>,
) -> Result<(), CompileError>
    ensures { ReadsAs (λ done. code.new.items) (step_emitted (spelled names.now.keys) code.old.items (step_of step.now)) result }
{
    let Step::Apply { function, left } = step else {
        return Err(CompileError::NotYet);
    };
    let Some(function) = function_of(function) else {
        return Err(CompileError::NotYet);
    };
    match left {
        None => code.push(Instr::Call1(function))?,
        Some(left) => {
            emit_part(names, left, code)?;
            code.push(Instr::Call2(function))?;
        }
    }
    Ok(())
}

/// The name of a subject.
fn subject_name(kind: &Kind) -> Option<&[char]>
    ensures { option_map (λ name. name.now) result ≡ subject_name_in kind.now }
{
    match kind {
        Kind::Word(name, Role::Subject) => Some(name.chars()),
        _ => None,
    }
}

/// Defines a name that is not defined yet.
fn emit_definition(
    alloc: Global,
    names: &mut IndexSet<Vec<char>>,
    name: &[char],
    code: &mut Vec<Instr>,
) -> Result<(), CompileError>
    ensures { ReadsAs (λ done. progress (spelled names.new.keys) code.new.items) (name_emitted (spelled names.old.keys) code.old.items name.now) result }
{
    if let Some(_) = names.get_index_of(name) {
        return Err(CompileError::NotYet);
    }
    names.insert_full(Vec::from_slice(alloc, name)?)?;
    code.push(Instr::Define)?;
    Ok(())
}

fn emit_target(
    alloc: Global,
    names: &mut IndexSet<Vec<char>>,
    kind: &Kind,
    code: &mut Vec<Instr>,
) -> Result<(), CompileError>
    ensures { ReadsAs (λ done. progress (spelled names.new.keys) code.new.items) (target_emitted (spelled names.old.keys) code.old.items kind.now) result }
{
    let Some(name) = subject_name(kind) else {
        return Err(CompileError::NotYet);
    };
    emit_definition(alloc, names, name, code)
}

/// Emits the last step of a statement, which may define a name.
#[tactic(auto, using(bqn_syntax::specs::grammar::TreeEquations::tree_equations))]
fn emit_last_step(
    alloc: Global,
    names: &mut IndexSet<Vec<char>>,
    step: &Step,
    code: &mut Vec<Instr>,
) -> Result<(), CompileError>
    ensures { ReadsAs (λ done. progress (spelled names.new.keys) code.new.items) (last_step_emitted (spelled names.old.keys) code.old.items (step_of step.now)) result }
{
    if let Step::Assign {
        target: Pattern::Name(token),
        arrow: Arrow::Define,
    } = step
    {
        return emit_target(alloc, names, &token.kind, code);
    }
    emit_step(names, step, code)
}

#[tactic(auto, using(crate::proofs::Emitting::step_laws))]
fn emit_stmt_steps(
    alloc: Global,
    names: &mut IndexSet<Vec<char>>,
    steps: &[Step],
    code: &mut Vec<Instr>,
) -> Result<(), CompileError>
    ensures { ReadsAs (λ done. progress (spelled names.new.keys) code.new.items) (stmt_steps_emitted (spelled names.old.keys) code.old.items (plain_steps (map step_of steps.now))) result }
{
    let Some((last, front)) = steps.split_last() else {
        return Ok(());
    };
    emit_steps(names, front, code)?;
    emit_last_step(alloc, names, last, code)
}

/// Emits a statement, whose value is dropped.
#[tactic(auto, using(bqn_syntax::specs::grammar::TreeEquations::tree_equations))]
fn emit_stmt(
    alloc: Global,
    names: &mut IndexSet<Vec<char>>,
    stmt: &Stmt,
    code: &mut Vec<Instr>,
) -> Result<(), CompileError>
    ensures { ReadsAs (λ done. progress (spelled names.new.keys) code.new.items) (stmt_emitted (spelled names.old.keys) code.old.items (stmt_of stmt.now)) result }
{
    let Stmt::Eval(
        Expr::Value {
            last: Some(part),
            steps,
        },
    ) = stmt
    else {
        return Err(CompileError::NotYet);
    };
    emit_part(names, part, code)?;
    emit_stmt_steps(alloc, names, steps.list(), code)?;
    code.push(Instr::Pop)?;
    Ok(())
}

/// The code of the statements of a tree.
#[tactic(auto, using(bqn_syntax::specs::grammar::TreeEquations::tree_equations))]
pub(crate) fn code_of(alloc: Global, stmts: &[Stmt]) -> Result<Vec<Instr>, CompileError>
    ensures { ReadsAs (λ code. code.items) (stmts_emitted [] [] (plain_stmts (map stmt_of stmts.now))) result }
{
    let mut names = IndexSet::new(alloc);
    let mut code = Vec::new(alloc);
    for stmt in stmts {
        emit_stmt(alloc, &mut names, stmt, &mut code)?;
    }
    Ok(code)
}
