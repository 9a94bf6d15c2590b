use crate::draft::Draft;
use bqn_syntax::{Arrow, Pattern};
use sqlite_items::Boxed;

/// A part, or a list that is a pattern.
#[derive(Drop)]
pub enum Element<'t> {
    Part(Draft<'t>),
    List(Boxed<Pattern>),
}

/// What stands in a piece, each bracket group being one.
#[derive(Drop)]
pub enum Item<'t> {
    Standing(Element<'t>),
    Drawn(Arrow),
    Joining,
    Selecting,
    /// A separator, `;`, `:` or `?` where it fits nowhere.
    Wrong,
}
