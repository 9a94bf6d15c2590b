use crate::token::Token;
use bqn_base::{Place, Row};

/// What a value is taken apart by: the target of an arrow, or an argument of a header.
#[cycle(pattern)]
#[derive(Drop)]
pub enum Pattern {
    /// A name, which is given the value.
    Name(Token),
    /// `·`, which takes any value and drops it.
    Skip(Place),
    /// A number, a character or a text, which the value has to match.
    Literal(Token),
    /// `⟨a,b⟩`: a list with these elements.
    List(Row<Pattern>),
    /// `a‿b`: a list with these elements.
    Strand(Row<Pattern>),
}

/// What stands before the `:` of a body: its own name and what is around it.
#[derive(Drop)]
pub struct Header {
    /// The left argument, where the header has one.
    pub left: Option<Pattern>,
    /// The left operand, of a modifier.
    pub left_operand: Option<Token>,
    /// What is called: `𝕊`, `_𝕣`, `_𝕣_` or a name.
    pub own: Token,
    /// The right operand, of a 2-modifier.
    pub right_operand: Option<Token>,
    /// The right argument, where the header has one.
    pub right: Option<Pattern>,
}
