use crate::{NumberError, number, string};
use std::test::Fail;

const BAD: Result<i64, NumberError> = Err(NumberError::Bad);

const RANGE: Result<i64, NumberError> = Err(NumberError::Range);

const NUMBERS: [(&str, Result<i64, NumberError>); 53] = [
    ("0", Ok(0)),
    ("¯0", Ok(0)),
    ("7", Ok(7)),
    ("1_000", Ok(1000)),
    ("1e3", Ok(1000)),
    ("1E3", Ok(1000)),
    ("1e_3", Ok(1000)),
    ("1_e3", Ok(1000)),
    ("_1__0_", Ok(10)),
    ("¯_1", Ok(-1)),
    ("00012", Ok(12)),
    ("10e¯1", Ok(1)),
    ("1.50e1", Ok(15)),
    ("0.002e3", Ok(2)),
    ("120.0", Ok(120)),
    ("12.50_e0_2", Ok(1250)),
    ("0.000e5", Ok(0)),
    ("0e99999999999999999999", Ok(0)),
    ("0.0e¯99999999999999999999", Ok(0)),
    ("1e18", Ok(1_000_000_000_000_000_000)),
    ("9223372036854775807", Ok(9_223_372_036_854_775_807)),
    ("¯9223372036854775808", Ok(-9_223_372_036_854_775_808)),
    ("9223372036854775807000e¯3", Ok(9_223_372_036_854_775_807)),
    ("9223372036854775808", RANGE),
    ("¯9223372036854775809", RANGE),
    ("18446744073709551616", RANGE),
    ("1e19", RANGE),
    ("1e99999999999999999999999999999999999999999999", RANGE),
    ("1e¯99999999999999999999999999999999999999999999", RANGE),
    ("1e¯1", RANGE),
    ("15e¯1", RANGE),
    ("1.5", RANGE),
    ("¯1.25e1", RANGE),
    ("∞", RANGE),
    ("¯∞", RANGE),
    ("π", RANGE),
    ("2∞", RANGE),
    ("1xπ", RANGE),
    ("", BAD),
    ("_", BAD),
    ("3i4", BAD),
    ("¯", BAD),
    ("1e", BAD),
    ("1.", BAD),
    (".5", BAD),
    ("e5", BAD),
    ("1e¯", BAD),
    ("1e1.5", BAD),
    ("¯¯1", BAD),
    ("2¯3", BAD),
    ("1e2e3", BAD),
    ("1.5.2", BAD),
    ("99999999999999999999x", BAD),
];

#[test]
fn numbers_of_words(rt: HostRuntime) -> Result<(), Fail> {
    for (word, want) in NUMBERS {
        let characters: Vec<char> = word.chars().collect(rt.alloc())?;
        assert_eq!(rt; number(characters.as_slice()), want, "{word}");
    }
    Ok(())
}

#[test]
fn numbers_with_many_zeros(rt: HostRuntime) -> Result<(), Fail> {
    let mut word = Vec::new(rt.alloc());
    word.push('1')?;
    for _ in 0..1000 {
        word.push('0')?;
    }
    assert_eq!(rt; number(word.as_slice()), RANGE);
    for c in ['e', '¯', '1', '0', '0', '0'] {
        word.push(c)?;
    }
    assert_eq!(rt; number(word.as_slice()), Ok(1));
    Ok(())
}

#[test]
fn strings(rt: HostRuntime) -> Result<(), Fail> {
    let pair = string(rt.alloc(), &['"', '"'])?;
    assert_eq!(rt; pair.chars(), ['"'].as_slice());
    let mixed = string(rt.alloc(), &['a', '"', '"', '"', '"', '≠'])?;
    assert_eq!(rt; mixed.chars(), ['a', '"', '"', '≠'].as_slice());
    Ok(())
}
