//! A source as it is run or checked: the bytes that are written, and the status.

ghost use Rattle.std.specs.Prelude.{◌≡◌, IsSome, MatchResult};
ghost use Rattle.bqn_io.specs.Writing.{Adds, Breaks};
ghost use Rattle.bqn_forms.specs.Form.{form_of};
ghost use Rattle.bqn_syntax.specs.grammar.Trees.{tree_of};
ghost use Rattle.bqn_forms.specs.Execution.{executed};
ghost use Rattle.bqn_cli.specs.Answer.{check_answer, default_steps, faulted, form_answer, refused, run_answer};
ghost use Rattle.bqn_cli.specs.Writing.{Gives, GivesRun};

use crate::front::{SourceError, accepted};
use crate::halted::Halted;
use bqn_base::{Refusal, Status};
use bqn_format::{error_line, refusal_line};
use bqn_forms::{End, Instr, Raised, run_code};
use bqn_io::{Failed, Sink};
use bqn_syntax::{Token, Tree};
use std::alloc::Global;

/// The steps that a run has where none are asked for.
const DEFAULT_STEPS: u64 = 1_000_000;

/// Adds a line at once.
pub(crate) fn put_line<K: Sink>(line: &[u8], out: &mut K) -> Result<(), Failed>
    ensures { MatchResult result (λ _. Adds K.written K.room K.faults out.old out.new line.now) (λ _. Breaks K.written K.room K.faults out.old out.new line.now) }
{
    out.put(line)
}

/// Writes the line of a refusal.
pub(crate) fn refuse<K: Sink>(
    alloc: Global,
    refusal: Refusal,
    out: &mut K,
) -> Result<Status, Halted>
    ensures { Gives K.written K.room K.faults (refused refusal) out.old out.new result }
{
    let Ok(line) = refusal_line(alloc, &refusal) else {
        return Err(Halted::Memory);
    };
    match put_line(&line, out) {
        Ok(()) => Ok(Status::Refused),
        Err(Failed) => Err(Halted::WriteFault),
    }
}

/// Writes the line of an uncaught fault.
fn report<K: Sink>(alloc: Global, raised: &Raised, out: &mut K) -> Result<Status, Halted>
    ensures { Gives K.written K.room K.faults (faulted raised.now) out.old out.new result }
{
    let Ok(line) = error_line(alloc, &raised.fault, Some(raised.place)) else {
        return Err(Halted::Memory);
    };
    match put_line(&line, out) {
        Ok(()) => Ok(Status::Fault),
        Err(Failed) => Err(Halted::WriteFault),
    }
}

/// Runs code that never misses an operand.
#[tactic(auto, using(crate::proofs::Ended::run_laws))]
fn run<K: Sink>(alloc: Global, code: &[Instr], out: &mut K) -> Result<Status, Halted>
    requires { IsSome (executed code.now default_steps) }
    ensures { GivesRun K.written K.room K.faults (executed code.now default_steps) out.old out.new result }
{
    match run_code(alloc, code, DEFAULT_STEPS, out) {
        End::Done => Ok(Status::Done),
        End::Spent => Ok(Status::Spent),
        End::Memory => Err(Halted::Memory),
        End::WriteFault => Err(Halted::WriteFault),
        End::Faulted(raised) => report(alloc, &raised, out),
    }
}

/// Compiles and runs the tree of the tokens of an accepted source.
#[tactic(auto, using(crate::proofs::Ended::source_laws))]
fn run_form<K: Sink>(
    alloc: Global,
    tokens: &[Token],
    tree: &Tree,
    out: &mut K,
) -> Result<Status, Halted>
    ensures { Gives K.written K.room K.faults (form_answer (form_of tokens.now (tree_of tree.now))) out.old out.new result }
{
    match bqn_forms::compile(alloc, tokens, tree) {
        Ok(code) => run(alloc, &code, out),
        Err(bqn_forms::CompileError::NotYet) => refuse(alloc, Refusal::NotYet, out),
        Err(bqn_forms::CompileError::Memory) => Err(Halted::Memory),
    }
}

/// Refuses a source, or runs it.
#[tactic(auto, using(crate::proofs::Accepted::answer_laws))]
pub(crate) fn run_source<K: Sink>(
    alloc: Global,
    source: &[u8],
    out: &mut K,
) -> Result<Status, Halted>
    ensures { Gives K.written K.room K.faults (run_answer source.now) out.old out.new result }
{
    match accepted(alloc, source) {
        Ok(source) => run_form(alloc, &source.tokens, &source.tree, out),
        Err(SourceError::Refused(refusal)) => refuse(alloc, refusal, out),
        Err(SourceError::Memory) => Err(Halted::Memory),
    }
}

/// Refuses a source, or writes nothing.
#[tactic(auto, using(crate::proofs::Accepted::answer_laws))]
pub(crate) fn check_source<K: Sink>(
    alloc: Global,
    source: &[u8],
    out: &mut K,
) -> Result<Status, Halted>
    ensures { Gives K.written K.room K.faults (check_answer source.now) out.old out.new result }
{
    match accepted(alloc, source) {
        Ok(_) => Ok(Status::Done),
        Err(SourceError::Refused(refusal)) => refuse(alloc, refusal, out),
        Err(SourceError::Memory) => Err(Halted::Memory),
    }
}
