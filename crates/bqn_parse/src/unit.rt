use crate::draft::{Draft, Function};
use bqn_syntax::{Arrow, Pattern};
use sqlite_items::Boxed;

/// What stands in a piece once modifiers are bound.
#[derive(Drop)]
pub enum Unit<'t> {
    Subject(Draft<'t>),
    Function(Function<'t>),
    /// `·`
    Absent(Draft<'t>),
    /// A modifier by itself.
    Alone(Draft<'t>),
    Arrow(Arrow),
    /// A target that is no name.
    Aim(Boxed<Pattern>),
}
