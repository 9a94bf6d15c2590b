/// How far a piece of a text has come, from its first character on.
#[derive(Clone, Copy, Debug, PartialEq, Eq)]
pub enum Progress {
    /// No character yet.
    Start,
    /// A whole piece that no further character belongs to.
    Done,
    /// A `#` and what follows it.
    Comment,
    /// A word whose last character is no digit.
    Word,
    /// A word whose last character is a digit.
    Digit,
    /// A word with a dot behind a digit.
    Dot,
    /// A `•`.
    Bullet,
    /// A single quote.
    Quote,
    /// A single quote and the character behind it.
    Quoted,
    /// A text whose end has not come.
    Inside,
    /// A text with a double quote that may end it.
    Closed,
}
