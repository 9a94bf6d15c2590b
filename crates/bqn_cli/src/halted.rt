/// What kept an answer from being given whole: want of memory, or a failed put.
#[derive(Clone, Copy, Debug, PartialEq, Eq)]
pub(crate) enum Halted {
    Memory,
    WriteFault,
}
