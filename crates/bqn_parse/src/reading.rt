//! How the items of a piece are read: as terms and units, and these as an expression, a statement or a pattern.

pub mod expression;
pub mod following;
pub mod grouping;
pub mod named;
pub mod next_unit;
pub mod pattern;
pub mod pieces;
pub mod strand;
pub mod targets;
pub mod terms;
pub mod train;
pub mod value_steps;
