//! The types of a source and of its tokens. What they mean stands in `specs/`.
#![tactic(auto)]

mod laws;
mod open;
mod pattern;
mod progress;
mod sort;
mod token;
mod tree;

pub use laws::{cut_is_unique, tokens_of_sources_fit};
pub use open::Open;
pub use pattern::{Header, Pattern};
pub use progress::Progress;
pub use sort::{Bracket, Inside, Sort, Tag};
pub use token::{Kind, Special, Token};
pub use tree::{Arrow, BlockTree, BodyTree, Class, Derived, Expr, ModUse, Part, Step, Stmt, Tree};
