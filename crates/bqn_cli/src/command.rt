ghost use Rattle.std.specs.Prelude.{◌≡◌, map, true};
ghost use Rattle.std.specs.String.{string_bytes};
ghost use Rattle.bqn_io.specs.Devices.{Rose};
ghost use Rattle.bqn_cli.specs.Command.{command_of};
ghost use Rattle.bqn_cli.specs.Answer.{Answers};
ghost use Rattle.bqn_cli.specs.Headline.{Cause, Fits, IsNoFailure, IsPrefix, IsWhole, LeavesFiles, LeavesInput, Meets};
ghost use Rattle.bqn_cli.specs.Tasks.{task_answer, task_command};
ghost use Rattle.bqn_cli.specs.Writing.{Gives, fetched_answer, status_of};

use crate::halted::Halted;
use crate::script::{check_source, put_line, refuse, run_source};
use crate::usage::usage_line;
use crate::words::{Task, task_of};
use bqn_base::{Refusal, Status};
use bqn_io::{Failed, FetchError, Fetched, Files, Sink, Source};
use std::alloc::Global;

/// The most bytes of a source.
const SOURCE_LIMIT: usize = 1 << 20;

fn status_after(given: Result<Status, Halted>) -> Status
    ensures { result ≡ status_of given }
{
    match given {
        Ok(status) => status,
        Err(Halted::Memory) => Status::Memory,
        Err(Halted::WriteFault) => Status::WriteFault,
    }
}

fn answer<K: Sink>(
    alloc: Global,
    task: Task,
    source: &[u8],
    output: &mut K,
) -> Result<Status, Halted>
    ensures { Gives K.written K.room K.faults (task_answer task source.now) output.old output.new result }
{
    match task {
        Task::Run => run_source(alloc, source, output),
        Task::Check => check_source(alloc, source, output),
    }
}

fn give<K: Sink>(
    alloc: Global,
    task: Task,
    fetched: Fetched,
    output: &mut K,
) -> Result<Status, Halted>
    ensures { Gives K.written K.room K.faults (fetched_answer (task_answer task) fetched) output.old output.new result }
{
    match fetched {
        Fetched::Whole(source) => answer(alloc, task, source.list(), output),
        Fetched::Longer => refuse(alloc, Refusal::TooLong, output),
    }
}

/// Runs or checks the source in a file.
#[tactic(auto, using(crate::proofs::Commands::task_laws))]
fn carry_out<F: Files, K: Sink>(
    alloc: Global,
    task: Task,
    file: &str,
    files: &mut F,
    output: &mut K,
) -> Status
    ensures { Meets F.told F.is_steady F.faults K.written K.room K.faults (task_command task file.now) files.old files.new output.old output.new result }
{
    match files.fetch(alloc, file, SOURCE_LIMIT) {
        Ok(fetched) => status_after(give(alloc, task, fetched, output)),
        Err(FetchError::Failed) => Status::ReadFault,
        Err(FetchError::Memory) => Status::Memory,
    }
}

/// Carries out the command that `words` are, and answers the exit status.
///
/// `run FILE` runs the source in a file. `check FILE` says by which refusal it is refused, and
/// nothing where it is accepted. All other words are no command: the usage line is written.
pub fn command<F: Files, S: Source, K: Sink>(
    alloc: Global,
    words: &[String],
    files: &mut F,
    input: &mut S,
    output: &mut K,
) -> Status
    ensures answer { IsWhole (Answers (command_of (map string_bytes words.now)) (F.told files.old)) (K.written output.old) (K.written output.new) result }
    ensures prefix { IsPrefix (Answers (command_of (map string_bytes words.now)) (F.told files.old)) (K.written output.old) (K.written output.new) result }
    ensures causes { Cause (λ file. Rose (F.faults files.old file) (F.faults files.new file)) (Rose (K.faults output.old) (K.faults output.new)) (command_of (map string_bytes words.now)) result }
    ensures completeness { F.is_steady files.old ≡ true → Fits (command_of (map string_bytes words.now)) (F.told files.old) (K.room output.old) → IsNoFailure result }
    ensures files { LeavesFiles (command_of (map string_bytes words.now)) files.old files.new }
    ensures input { LeavesInput (command_of (map string_bytes words.now)) input.old input.new }
{
    let _ = &input;
    match task_of(words) {
        Some((task, file)) => carry_out(alloc, task, file, files, output),
        None => match put_line(usage_line(), output) {
            Ok(()) => Status::Usage,
            Err(Failed) => Status::WriteFault,
        },
    }
}
