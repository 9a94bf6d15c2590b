/// Why a word is no number of 64 bits.
#[derive(Clone, Copy, Debug, PartialEq, Eq)]
pub enum NumberError {
    /// It has no number form.
    Bad,
    /// It denotes no whole number from -2^63 to 2^63 - 1.
    Range,
}
