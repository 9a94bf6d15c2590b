//! Code: what a source is compiled to, as data. What it means stands in `specs/`.
#![tactic(auto)]

mod code;
mod constant;
mod instr;
mod pattern;

pub use code::{Block, Body, Code};
pub use constant::Const;
pub use instr::Instr;
pub use pattern::PatternCode;
