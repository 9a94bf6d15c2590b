use bqn_base::Place;

/// What is called: `+`, `-`, `×` or `•Show`.
#[derive(Clone, Copy, Debug, PartialEq, Eq)]
pub enum Function {
    Plus,
    Minus,
    Times,
    Show,
}

/// A function, and the place of its token.
#[derive(Clone, Copy, Debug, PartialEq, Eq)]
pub struct Callee {
    pub function: Function,
    pub place: Place,
}
