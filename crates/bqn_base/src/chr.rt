//! The rows of arithmetic on characters.

ghost use Rattle.std.specs.Prelude.{◌≡◌};
ghost use Rattle.bqn_base.specs.Shifts.{distance_of, shift_of};

use crate::fault::Fault;

/// `c+n`: CharRange where no character stands that far on.
#[tactic(auto, using(crate::proofs::Scalars::scalar_laws))]
pub fn shift(c: char, n: i64) -> Result<char, Fault>
    ensures { result ≡ shift_of c n }
{
    let code = i128::from(u32::from(c)) + i128::from(n);
    match u32::try_from(code) {
        Ok(code) => char::from_u32(code).ok_or(Fault::CharRange),
        Err(_) => Err(Fault::CharRange),
    }
}

/// `w-x`: how far two characters are apart.
pub fn minus(w: char, x: char) -> i64
    ensures { result ≡ distance_of w x }
{
    i64::from(u32::from(w)) - i64::from(u32::from(x))
}
