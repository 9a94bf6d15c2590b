use crate::function::Callee;
use bqn_base::Place;

/// An instruction, with its place where it may fault. The stack holds numbers; the top is the last one pushed.
#[derive(Clone, Copy, Debug, PartialEq, Eq)]
pub enum Instr {
    /// Pushes the number.
    Const(i64),
    /// Pushes the value of the name with this number.
    Load(usize, Place),
    /// Gives the next name the value at the top, which stays.
    Define,
    /// Takes the right argument and pushes the answer.
    Call1(Callee),
    /// Takes the left argument, then the right one, and pushes the answer.
    Call2(Callee),
    /// Drops the top.
    Pop,
}
