use crate::place::Place;

/// Why a source is not accepted. `at` counts the bytes before the first one that is no UTF-8.
///
/// `NotYet` refuses what is not built yet; it leaves when the language is whole.
#[derive(Clone, Copy, Debug, PartialEq, Eq)]
pub enum Refusal {
    NotUtf8 { at: u32 },
    TooLong,
    BadChar(Place),
    OpenQuote(Place),
    BadNumber(Place),
    NumberRange(Place),
    BadName(Place),
    Bracket(Place),
    TooNested(Place),
    Grammar(Place),
    BadBlock(Place),
    Undeclared(Place),
    Redefined(Place),
    Early(Place),
    TooMany(Place),
    UnknownSystem(Place),
    NotYet,
}
