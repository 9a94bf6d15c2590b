use bqn_base::Place;

/// A bracket that is open, or a mark that may open or close one: the index of its token, its
/// character and its place.
#[derive(Clone, Copy, Debug, PartialEq, Eq)]
pub struct Open {
    pub index: u32,
    pub code: char,
    pub place: Place,
}
