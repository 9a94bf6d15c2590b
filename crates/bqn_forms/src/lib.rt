//! The machine: how a tree of the form that is built so far becomes code, and how code runs.
#![tactic(auto)]

mod call;
mod code;
mod compiler;
mod emitter;
mod end;
mod error;
mod function;
mod functions;
mod line;
mod raised;
mod run;

pub use code::Instr;
pub use compiler::compile;
pub use end::End;
pub use error::CompileError;
pub use function::{Callee, Function};
pub use raised::Raised;
pub use run::run_code;
