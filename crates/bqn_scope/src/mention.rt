use bqn_base::Row;
use bqn_syntax::Token;

/// What a token does with its name.
#[derive(Clone, Copy, Debug, PartialEq, Eq)]
pub enum How {
    Reads,
    Defines,
    /// Defines and exports.
    Exports,
    Changes,
    /// Exports without a value.
    Shows,
}

/// A name that is read or stored.
#[derive(Clone, Copy)]
pub struct Event<'a> {
    pub how: How,
    pub token: &'a Token,
}

/// A name, or a block that stands there with its bodies.
#[cycle(mention)]
#[derive(Drop)]
pub enum Mention<'a> {
    Named(How, &'a Token),
    Special(&'a Token),
    System(&'a Token),
    Inner(Row<Own<'a>>),
}

/// A body's own mentions in text order, and its reads and stores in the order of evaluation.
#[cycle(mention)]
#[derive(Drop)]
pub struct Own<'a> {
    pub mentions: Row<Mention<'a>>,
    pub order: Row<Event<'a>>,
}
