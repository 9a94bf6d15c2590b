use bqn_base::Text;

/// A value that a source spells out.
#[derive(Debug, Drop)]
pub enum Const {
    Number(i64),
    Char(char),
    /// A list of characters.
    Text(Text),
}
