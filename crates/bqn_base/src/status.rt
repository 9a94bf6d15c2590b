/// How a command ends: the number is the exit status of the program.
#[derive(Clone, Copy, Debug, PartialEq, Eq)]
pub enum Status {
    Done = 0,
    Fault = 1,
    Refused = 2,
    Usage = 3,
    Memory = 4,
    ReadFault = 5,
    WriteFault = 6,
    Spent = 7,
    BadImage = 8,
    InputTooLong = 9,
}
