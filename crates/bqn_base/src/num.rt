//! The rows of arithmetic on two numbers, or on one.

ghost use Rattle.std.specs.Prelude.{◌≡◌, ◌+◌, ◌^◌, ◌<◌, ◌≤◌, ◌≤ℤ◌, ◌<ℤ◌, ℕ, pos, negsuc, nat_le, unsigned_abs};
ghost use Rattle.bqn_base.specs.Arithmetic.{difference_of, in_range, negative_of, product_of, sign_of, sum_of};
ghost use Rattle.bqn_base.specs.Numbers.{absolute_of, complement_of, disjunction_of, exponential_of, modulus_of};
ghost use Rattle.bqn_base.specs.Numbers.{power_of, quotient_of, reciprocal_of, root_of, span_of, square_root_of};

use crate::fault::Fault;

/// `w+x`: Overflow outside 64 bits.
#[tactic(auto, using(crate::proofs::Fits::fits_laws))]
pub fn add(w: i64, x: i64) -> Result<i64, Fault>
    ensures { result ≡ sum_of w x }
{
    w.checked_add(x).ok_or(Fault::Overflow)
}

/// `w-x`: Overflow outside 64 bits.
#[tactic(auto, using(crate::proofs::Fits::fits_laws))]
pub fn sub(w: i64, x: i64) -> Result<i64, Fault>
    ensures { result ≡ difference_of w x }
{
    w.checked_sub(x).ok_or(Fault::Overflow)
}

/// `w×x`: Overflow outside 64 bits.
#[tactic(auto, using(crate::proofs::Fits::fits_laws))]
pub fn mul(w: i64, x: i64) -> Result<i64, Fault>
    ensures { result ≡ product_of w x }
{
    w.checked_mul(x).ok_or(Fault::Overflow)
}

/// `-x`: Overflow for the least number.
#[tactic(auto, using(crate::proofs::Fits::fits_laws))]
pub fn negate(x: i64) -> Result<i64, Fault>
    ensures { result ≡ negative_of x }
{
    x.checked_neg().ok_or(Fault::Overflow)
}

/// `×x`: 1, 0 or ¯1 by the sign of the number.
pub fn sign(x: i64) -> i64
    ensures { result ≡ sign_of x }
{
    x.signum()
}

// This number, if it is one of 64 bits.
#[tactic(auto, using(crate::proofs::Fits::narrow_laws))]
fn narrow(number: i128) -> Result<i64, Fault>
    ensures { result ≡ in_range number }
{
    i64::try_from(number).ok().ok_or(Fault::Overflow)
}

/// `|x`: Overflow for the least number.
#[tactic(auto, using(crate::proofs::Fits::fits_laws))]
pub fn abs(x: i64) -> Result<i64, Fault>
    ensures { result ≡ absolute_of x }
{
    x.checked_abs().ok_or(Fault::Overflow)
}

/// `¬x`: 1 less the number.
pub fn not_of(x: i64) -> Result<i64, Fault>
    ensures { result ≡ complement_of x }
{
    sub(1, x)
}

/// `w¬x`: the difference and 1 more, as one value.
#[tactic(auto, using(crate::proofs::Fits::fits_laws))]
pub fn span(w: i64, x: i64) -> Result<i64, Fault>
    ensures { result ≡ span_of w x }
{
    narrow(i128::from(w) - i128::from(x) + 1)
}

/// `w∨x`: the sum less the product, as one value.
#[tactic(auto, using(crate::proofs::Fits::fits_laws))]
pub fn or_of(w: i64, x: i64) -> Result<i64, Fault>
    ensures { result ≡ disjunction_of w x }
{
    let w = i128::from(w);
    let x = i128::from(x);
    narrow(w + x - w * x)
}

/// `÷x`: only 1 and ¯1 have a whole reciprocal.
#[tactic(auto, using(crate::proofs::Quotients::quotient_laws))]
pub fn reciprocal(x: i64) -> Result<i64, Fault>
    ensures { result ≡ reciprocal_of x }
{
    match x.unsigned_abs() {
        0 => Err(Fault::DivideByZero),
        1 => Ok(x),
        _ => Err(Fault::NotWhole),
    }
}

/// `w÷x`: the quotient, where it is whole.
#[tactic(auto, using(crate::proofs::Quotients::quotient_laws))]
pub fn div(w: i64, x: i64) -> Result<i64, Fault>
    ensures { result ≡ quotient_of w x }
{
    if x == 0 {
        return Err(Fault::DivideByZero);
    }
    if w.unsigned_abs() % x.unsigned_abs() != 0 {
        return Err(Fault::NotWhole);
    }
    w.checked_div(x).ok_or(Fault::Overflow)
}

/// `w|x`: what is left of x after the floor of its quotient by w.
#[tactic(auto, using(crate::proofs::Remainders::modulus_laws))]
pub fn modulus(w: i64, x: i64) -> Result<i64, Fault>
    ensures { result ≡ modulus_of w x }
{
    if w == 0 {
        return Err(Fault::DivideByZero);
    }
    let rest = x.wrapping_rem(w);
    if 0 < w {
        if rest < 0 { Ok(rest + w) } else { Ok(rest) }
    } else {
        if 0 < rest { Ok(rest + w) } else { Ok(rest) }
    }
}

/// `⋆x`: whole for 0 alone.
pub fn exponential(x: i64) -> Result<i64, Fault>
    ensures { result ≡ exponential_of x }
{
    if x == 0 { Ok(1) } else { Err(Fault::NotWhole) }
}

/// `w⋆x`: the power, where it is whole; `0⋆0` is 1.
#[tactic(auto, using(crate::proofs::Powers::power_laws))]
pub fn pow(w: i64, x: i64) -> Result<i64, Fault>
    ensures { result ≡ power_of w x }
{
    match w {
        0 => power_of_zero(x),
        1 => Ok(1),
        -1 => Ok(if x.unsigned_abs() % 2 == 0 { 1 } else { -1 }),
        _ => power_of_many(w, x),
    }
}

// `0⋆x`
#[tactic(auto, using(crate::proofs::Powers::power_laws))]
fn power_of_zero(x: i64) -> Result<i64, Fault>
    ensures { result ≡ power_of (pos 0) x }
{
    if x < 0 {
        Err(Fault::DivideByZero)
    } else if x == 0 {
        Ok(1)
    } else {
        Ok(0)
    }
}

// `w⋆x` for a number whose powers grow: those of 64 and more overflow.
#[tactic(auto, using(crate::proofs::Powers::power_laws))]
fn power_of_many(w: i64, x: i64) -> Result<i64, Fault>
    requires { 2 ≤ unsigned_abs w }
    ensures { result ≡ power_of w x }
{
    if x < 0 {
        Err(Fault::NotWhole)
    } else if x < 64 {
        w.checked_pow(x as u32).ok_or(Fault::Overflow)
    } else {
        Err(Fault::Overflow)
    }
}

/// `√x`: the whole root, if there is one.
#[tactic(auto, using(crate::proofs::Degrees::square_laws))]
pub fn sqrt(x: i64) -> Result<i64, Fault>
    ensures { result ≡ square_root_of x }
{
    root(2, x)
}

/// `w√x`: the number from 0 on whose power w is x, if there is one.
#[tactic(auto, using(crate::proofs::Degrees::root_row_laws))]
pub fn root(w: i64, x: i64) -> Result<i64, Fault>
    ensures { result ≡ root_of w x }
{
    if w == 0 {
        Err(Fault::DivideByZero)
    } else if x < 0 {
        Err(Fault::Domain)
    } else if 0 < w {
        root_above(w, x)
    } else {
        root_below(x)
    }
}

// `w√x` for a w below 0, all of which are alike
#[tactic(auto, using(crate::proofs::Degrees::root_row_laws))]
fn root_below(x: i64) -> Result<i64, Fault>
    requires { pos 0 ≤ℤ x }
    ensures { result ≡ root_of (negsuc 0) x }
{
    match x {
        0 => Err(Fault::DivideByZero),
        1 => Ok(1),
        _ => Err(Fault::NotWhole),
    }
}

// `w√x` for a w above 0; a number below 2^63 has no whole root of degree 63 or more but itself, if it is 0 or 1.
#[tactic(auto, using(crate::proofs::Degrees::root_row_laws))]
fn root_above(w: i64, x: i64) -> Result<i64, Fault>
    requires degree { pos 0 <ℤ w }
    requires number { pos 0 ≤ℤ x }
    ensures { result ≡ root_of w x }
{
    if x < 2 {
        return Ok(x);
    }
    if 63 <= w {
        return Err(Fault::NotWhole);
    }
    let degree = w as u32;
    let floor = floor_root(degree, x as u64);
    if floor.pow(degree) == x as u64 {
        Ok(floor as i64)
    } else {
        Err(Fault::NotWhole)
    }
}

// The greatest number whose power is at most x, by bisection.
#[tactic(auto, using(crate::proofs::Degrees::search_laws))]
fn floor_root(degree: u32, x: u64) -> u64
    requires degree { 1 ≤ degree }
    requires number { x < 2 ^ 63 }
    ensures below { result ^ degree ≤ x }
    ensures above { x < (result + 1) ^ degree }
    ensures small { result ≤ x }
{
    let mut low: u64 = 0;
    let mut high: u64 = x + 1;
    'halve: while low + 1 < high {
        let middle = (low + high) / 2;
        if is_power_within(middle, degree, x) {
            low = middle;
        } else {
            high = middle;
        }
    }
    low
}

// The power is at most x.
fn is_power_within(base: u64, degree: u32, x: u64) -> bool
    requires { x < 2 ^ 63 }
    ensures { result ≡ nat_le (base ^ degree) x }
{
    match base.checked_pow(degree) {
        Some(power) => power <= x,
        None => false,
    }
}
