use crate::text::Text;

/// What ends an evaluation, unless it is caught. `Assert` holds its message.
#[derive(Debug, Drop)]
pub enum Fault {
    Assert(Text),
    Domain,
    Rank,
    Length,
    Index,
    Overflow,
    NotWhole,
    DivideByZero,
    CharRange,
    NoFill,
    NoIdentity,
    NoInverse,
    UnderConflict,
    Undefined,
    NoBody,
    Pattern,
    NoField,
    NotCallable,
    NothingUsed,
    TooLarge,
    TooDeep,
    NoOrder,
    NoCompare,
    LeftOut,
}
