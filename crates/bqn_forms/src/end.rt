use crate::raised::Raised;

/// How a run ends. Want of memory and a failed put leave a prefix of what is to be written.
#[derive(Debug, Drop)]
pub enum End {
    Done,
    Faulted(Raised),
    Spent,
    Memory,
    WriteFault,
}
