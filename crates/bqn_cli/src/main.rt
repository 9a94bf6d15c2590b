//! The program: a script in a file, run or checked from the command line.
#![tactic(auto)]

mod command;
mod front;
mod halted;
mod script;
#[cfg(test)]
mod tests;
mod usage;
mod words;

use bqn_base::Status;
use bqn_io::{DiskFiles, StdSink, StdSource};
pub use command::command as run_command;
use std::io;
use std::process::ExitCode;

/// The exit status where the words of the command line can't be had as text; no command has it.
const NO_WORDS: u8 = 10;

fn words_of(rt: &HostRuntime) -> io::Result<Vec<String>> {
    let mut words = Vec::new(rt.alloc());
    for word in std::env::args(rt)?.skip(1) {
        words.push(word)?;
    }
    Ok(words)
}

fn main(rt: HostRuntime) -> ExitCode {
    let Ok(words) = words_of(&rt) else {
        return ExitCode::from(NO_WORDS);
    };
    let mut files = DiskFiles::new(rt);
    let mut input = StdSource::new(rt.stdin());
    let mut output = StdSink::new(rt.stdout());
    let status = command::command(rt.alloc(), &words, &mut files, &mut input, &mut output);
    ExitCode::from(status as u8)
}
