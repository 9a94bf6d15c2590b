use bqn_base::Row;

/// What a value is taken apart by. A leaf stores into a slot; its name, told by its number among
/// the names of the code, is the field that it takes from a namespace.
#[cycle(pattern)]
#[derive(Drop)]
pub enum PatternCode {
    /// Takes any value and drops it.
    Skip,
    /// Stores into a slot of the body itself.
    Define { slot: u16, name: u32 },
    /// Stores into a slot that has a value, so many bodies up.
    Change { up: u16, slot: u16, name: u32 },
    /// Takes a list of as many elements, or a namespace with fields of these names.
    List(Row<PatternCode>),
    /// Takes what matches the constant with this number.
    Literal(u16),
}
