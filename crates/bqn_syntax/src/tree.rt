use crate::pattern::{Header, Pattern};
use crate::token::Token;
use bqn_base::{Place, Row};
use sqlite_items::Boxed;

/// What an arrow does with what stands on its right.
#[derive(Clone, Copy, Debug, PartialEq, Eq)]
pub enum Arrow {
    /// `←`: defines names.
    Define,
    /// `⇐`: defines names and exports them.
    Export,
    /// `↩`: changes names that are defined already.
    Change,
}

/// What a block is, by the special names and the headers in it.
#[derive(Clone, Copy, Debug, PartialEq, Eq)]
pub enum Class {
    /// Evaluated where it stands, to its value.
    Immediate,
    /// A function.
    Function,
    /// A 1-modifier that is evaluated once it has its operand.
    Mod1,
    /// A 1-modifier that waits for the arguments too.
    Mod1Deferred,
    /// A 2-modifier that is evaluated once it has its operands.
    Mod2,
    /// A 2-modifier that waits for the arguments too.
    Mod2Deferred,
}

/// A whole source: its statements, in order.
#[derive(Drop)]
pub struct Tree {
    pub statements: Row<Stmt>,
}

/// A statement of a body.
#[cycle(tree)]
#[derive(Drop)]
pub enum Stmt {
    /// An expression that is evaluated.
    Eval(Expr),
    /// `e?`: the body goes on only where the value is 1.
    Predicate(Expr),
    /// `names⇐`: exports names.
    Export(Pattern),
}

/// An expression, by its role.
#[cycle(tree)]
#[derive(Drop)]
pub enum Expr {
    /// A value: the part that stands last, and what is done with it, from right to left. Only
    /// where the row ends in a change `a F↩` is there no last part.
    Value {
        last: Option<Part>,
        steps: Row<Step>,
    },
    /// A function, perhaps assigned to names: the parts of a train, from left to right.
    Train {
        targets: Row<(Token, Arrow)>,
        parts: Row<Derived>,
    },
    /// A modifier, perhaps assigned to names.
    Modifier {
        targets: Row<(Token, Arrow)>,
        part: Part,
    },
}

/// What is done with the value that stands on the right.
#[cycle(tree)]
#[derive(Drop)]
pub enum Step {
    /// A call of a function, with a left argument or without.
    Apply {
        function: Derived,
        left: Option<Part>,
    },
    /// `p←`, `p⇐` and `p↩`: the value is assigned.
    Assign {
        target: Pattern,
        arrow: Arrow,
    },
    /// `a F↩`: the name is changed by a function.
    Modify {
        target: Token,
        function: Derived,
    },
}

/// A part and the modifiers behind it, which bind from the left.
#[cycle(tree)]
#[derive(Drop)]
pub struct Derived {
    pub first: Part,
    pub uses: Row<ModUse>,
}

/// A modifier behind its left operand.
#[cycle(tree)]
#[derive(Drop)]
pub enum ModUse {
    /// A 1-modifier.
    One(Part),
    /// A 2-modifier and its right operand.
    Two(Part, Part),
}

/// What an expression is made of.
#[cycle(tree)]
#[derive(Drop)]
pub enum Part {
    /// A single token: a literal, a name of any kind or a primitive.
    Leaf(Token),
    /// `⟨a,b⟩`: the list of these values.
    List(Row<Expr>),
    /// `[a,b]`: the array whose cells are these values.
    Merge(Row<Expr>),
    /// `(e)`
    Paren(Boxed<Expr>),
    /// `{..}`
    Block(Boxed<BlockTree>),
    /// `base.name.name`: a field of a namespace, and so on.
    Field {
        base: Boxed<Part>,
        names: Row<Token>,
    },
    /// `a‿b`: the list of these values.
    Strand(Row<Part>),
    /// `·`: no value.
    Nothing(Place),
}

/// A block: the place of its `{`, its class and its bodies.
#[cycle(tree)]
#[derive(Drop)]
pub struct BlockTree {
    pub place: Place,
    pub class: Class,
    pub bodies: Row<BodyTree>,
}

/// A body of a block: a header, if there is one, and statements.
#[cycle(tree)]
#[derive(Drop)]
pub struct BodyTree {
    pub header: Option<Header>,
    pub statements: Row<Stmt>,
}
