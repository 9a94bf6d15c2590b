//! The words of a command line.

ghost use Rattle.std.specs.Prelude.{◌≡◌, map, MatchOption};
ghost use Rattle.std.specs.String.{string_bytes};
ghost use Rattle.bqn_cli.specs.Command.{command_of, NoCommand};
ghost use Rattle.bqn_cli.specs.Tasks.{task_command};

/// A command that reads a source from a file.
#[derive(Clone, Copy, Debug, PartialEq, Eq)]
pub(crate) enum Task {
    Run,
    Check,
}

/// The command that the words are, and its file, or none where they are no command.
#[tactic(auto, using(crate::proofs::CommandWords::word_laws))]
pub(crate) fn task_of(words: &[String]) -> Option<(Task, &str)>
    ensures { MatchOption result (command_of (map string_bytes words.now) ≡ NoCommand) (λ found. command_of (map string_bytes words.now) ≡ task_command found.0 found.1.now) }
{
    let [name, file] = words else {
        return None;
    };
    if name.as_str() == "check" {
        Some((Task::Check, file.as_str()))
    } else if name.as_str() == "run" && file.as_str() != "--steps" {
        Some((Task::Run, file.as_str()))
    } else {
        None
    }
}
