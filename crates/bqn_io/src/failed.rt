/// A fault of a device: nothing else is known of it.
#[derive(Clone, Copy, Debug, PartialEq, Eq)]
pub struct Failed;
