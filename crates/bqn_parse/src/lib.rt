//! The tree of a token list.
#![tactic(auto)]

mod blocks;
mod close;
mod draft;
mod error;
mod growth;
mod item;
mod judge;
mod looks;
mod marks;
mod one_token;
mod open_bracket;
mod parsing;
mod reading;
mod tags;
mod unit;

pub use error::ParseError;
pub use parsing::parse;
