//! Digits of any count, kept in 64 bits and a count of the zeros behind them.

ghost use Rattle.std.specs.Prelude.{◌≡◌, ◌+◌, ◌-◌, ◌*◌, ◌^◌, ◌<◌, ◌≤◌, length, IfSome, min};
ghost use Rattle.std.specs.Option.{option_and_then};
ghost use Rattle.bqn_base.specs.Literal.{value_from};
ghost use Rattle.bqn_literal.specs.Shown.{figures};
ghost use Rattle.bqn_literal.specs.Values.{limit, nothing, placed, scaled_to, small, with_digit, with_digits};

use crate::front::is_a_digit;

/// A number that does not end with a zero digit, or zero, and how many zeros follow it.
#[derive(Clone, Copy)]
pub(crate) struct Significand {
    magnitude: u64,
    zeros: u128,
}

/// Powers of ten past this one are as good as it: no word has so many digits.
const LIMIT: u128 = 1 << 100;

/// A number with zeros behind it, in 64 bits.
#[tactic(auto, using(crate::proofs::Small::small_laws))]
fn shifted(magnitude: u64, zeros: u128) -> Option<u64>
    requires { 0 < magnitude }
    ensures { result ≡ small (magnitude * 10 ^ zeros) }
{
    if zeros == 1 {
        return magnitude.checked_mul(10);
    }
    let exponent = u32::try_from(zeros).ok()?;
    let factor = 10u64.checked_pow(exponent)?;
    magnitude.checked_mul(factor)
}

impl Significand {
    /// No digits yet.
    pub(crate) fn new() -> Significand
        ensures { result ≡ nothing }
    {
        Significand {
            magnitude: 0,
            zeros: 0,
        }
    }

    /// With one more digit, if the digits up to the last that is not zero fit 64 bits.
    #[tactic(auto, using(crate::proofs::Small::digit_laws))]
    fn with_digit(self, digit: u64) -> Option<Significand>
        requires { self.zeros < 2 ^ 100 }
        ensures { result ≡ with_digit self digit }
    {
        if self.magnitude == 0 {
            return Some(Significand {
                magnitude: digit,
                zeros: 0,
            });
        }
        if digit == 0 {
            return Some(Significand {
                magnitude: self.magnitude,
                zeros: self.zeros + 1,
            });
        }
        let magnitude = shifted(self.magnitude, self.zeros + 1)?.checked_add(digit)?;
        Some(Significand {
            magnitude,
            zeros: 0,
        })
    }

    /// With the digits of a part, if the digits up to the last that is not zero fit 64 bits.
    #[tactic(auto, using(crate::proofs::Reading::digits_laws))]
    pub(crate) fn with_digits(self, digits: &[char]) -> Option<Significand>
        requires { self.zeros ≤ 2 ^ 64 }
        ensures value { result ≡ with_digits (figures digits.now) self }
        ensures few { IfSome result (λ after. after.zeros ≤ self.zeros + 2 ^ 64) }
    {
        let mut read = self;
        'scan: for c in digits {
            if !is_a_digit(*c) {
                continue;
            }
            read = read.with_digit(*c as u64 - 48)?;
        }
        Some(read)
    }

    /// The number in 64 bits that this gives times ten to the power up - down.
    #[tactic(auto, using(crate::proofs::Small::scale_laws))]
    pub(crate) fn scaled(self, up: u128, down: u128) -> Option<u64>
        requires few { self.zeros ≤ 2 ^ 66 }
        requires bounded { up ≤ 2 ^ 101 }
        ensures { result ≡ scaled_to self up down }
    {
        if self.magnitude == 0 {
            return Some(0);
        }
        let zeros = (self.zeros + up).checked_sub(down)?;
        shifted(self.magnitude, zeros)
    }
}

/// What the digits of a power stand for, at most the limit.
#[tactic(auto, using(crate::proofs::Reading::power_laws))]
pub(crate) fn power_of(digits: &[char]) -> u128
    ensures { result ≡ min (value_from 0 (figures digits.now)) limit }
{
    let mut power = 0;
    'scan: for c in digits {
        if !is_a_digit(*c) {
            continue;
        }
        power = (power * 10 + (*c as u128 - 48)).min(LIMIT);
    }
    power
}

/// How many digits a part has.
#[tactic(auto, using(crate::proofs::Reading::count_laws))]
pub(crate) fn digit_count(digits: &[char]) -> usize
    ensures { result ≡ length (figures digits.now) }
{
    let mut count = 0;
    'scan: for c in digits {
        if !is_a_digit(*c) {
            continue;
        }
        count += 1;
    }
    count
}
