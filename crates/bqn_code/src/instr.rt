/// An instruction. The stack holds values, and Nothing, which is no value; the top is what was
/// pushed last. What an instruction takes leaves the stack, the top first.
///
/// `up` counts the bodies from the one where the instruction stands (0) outward, and `slot` the
/// variables of the body that is meant. Constants, names, patterns and blocks are told by their
/// numbers in the code.
#[derive(Clone, Copy, Debug, PartialEq, Eq)]
pub enum Instr {
    /// Pushes a constant.
    Const(u16),
    /// Pushes the given value with this code: a primitive or a system value.
    Given(u8),
    /// Pushes Nothing.
    Nothing,
    /// Pushes the function or modifier that a block makes here.
    Block(u16),
    /// Runs an immediate block and pushes its answer.
    Run(u16),
    /// Pushes the value of a variable.
    Load { up: u16, slot: u16 },
    /// Stores the top, which stays, into a variable of the body itself.
    Define { slot: u16 },
    /// Stores the top, which stays, into a variable that has a value.
    Change { up: u16, slot: u16 },
    /// Drops the top.
    Pop,
    /// Takes so many values and pushes their list, whose last element was the top.
    List(u32),
    /// Takes a function and its right argument; pushes the answer.
    Call1,
    /// Takes a left argument, a function and its right argument; pushes the answer.
    Call2,
    /// Takes an operand and a 1-modifier; pushes what they make.
    Derive1,
    /// Takes a left operand, a 2-modifier and a right operand; pushes what they make.
    Derive2,
    /// Takes the two parts of a train, the left one first; pushes the train.
    Train2,
    /// Takes the three parts of a train, the left one first; pushes the train.
    Train3,
    /// Takes a namespace; pushes its field of this name.
    Field(u32),
    /// Stores the top, which stays, by a pattern.
    Bind(u32),
    /// Takes a value and stores it by a pattern; where it doesn't fit, the next body is tried.
    Match(u32),
    /// Takes 1, or 0, at which the next body is tried.
    Check,
    /// Pushes the left argument, or Nothing where there is none.
    Left,
    /// Pushes the right argument.
    Right,
    /// Pushes the function that is called.
    Own,
    /// Pushes the left operand.
    LeftOperand,
    /// Pushes the right operand.
    RightOperand,
    /// Pushes the modifier whose operands these are.
    Modifier,
    /// Ends the body with the one value that is left.
    Return,
    /// Ends the body with the namespace of its variables; nothing is left.
    Space,
}
