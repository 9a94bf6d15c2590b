//! What a source means: environments of names, statements, expressions, patterns, bodies and lines of a
//! session. Nothing runs here: the definitions stand in `specs/`.
#![tactic(auto)]

mod laws;

pub use laws::{evaluations_meet_their_blocks, larger_budgets_go_on, runs_advance};
