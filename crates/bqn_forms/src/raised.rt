use bqn_base::{Fault, Place};

/// A fault, and the place of what failed.
#[derive(Debug, Drop)]
pub struct Raised {
    pub fault: Fault,
    pub place: Place,
}
