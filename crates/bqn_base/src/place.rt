/// A place in a source: a line and a column, both counted from 1 in code points of the text.
#[derive(Clone, Copy, Debug, PartialEq, Eq)]
pub struct Place {
    pub line: u32,
    pub column: u32,
}
