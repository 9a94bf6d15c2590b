use crate::{Fault, Name, Row, Text, chr, num};
use std::test::Fail;

// The answer, as a text can compare it.
fn shown(answer: Result<i64, Fault>) -> Result<i64, &'static str> {
    match answer {
        Ok(number) => Ok(number),
        Err(Fault::Overflow) => Err("Overflow"),
        Err(Fault::NotWhole) => Err("NotWhole"),
        Err(Fault::DivideByZero) => Err("DivideByZero"),
        Err(Fault::Domain) => Err("Domain"),
        Err(_) => Err("another fault"),
    }
}

#[test]
fn powers_and_roots(rt: HostRuntime) -> Result<(), Fail> {
    // Two numbers, and the power of the first and the root of the second.
    let rows = [
        (-2, 63, Ok(i64::MIN), Err("NotWhole")),
        (2, 64, Err("Overflow"), Ok(8)),
        (3, 27, Ok(7625597484987), Ok(3)),
        (3, 40, Err("Overflow"), Err("NotWhole")),
        (0, 0, Ok(1), Err("DivideByZero")),
        (0, -1, Err("DivideByZero"), Err("DivideByZero")),
        (-1, i64::MAX, Ok(-1), Err("NotWhole")),
        (1, i64::MAX, Ok(1), Ok(i64::MAX)),
        (2, 9223372030926249001, Err("Overflow"), Ok(3037000499)),
        (62, 4611686018427387904, Err("Overflow"), Ok(2)),
        (2, -1, Err("NotWhole"), Err("Domain")),
        (-3, 1, Ok(-3), Ok(1)),
    ];
    for (w, x, power, root) in rows {
        assert_eq!(rt; shown(num::pow(w, x)), power, "{w} ⋆ {x}");
        assert_eq!(rt; shown(num::root(w, x)), root, "{w} √ {x}");
    }
    assert_eq!(rt; shown(num::sqrt(49)), Ok(7));
    assert_eq!(rt; shown(num::exponential(0)), Ok(1));
    Ok(())
}

#[test]
fn quotients(rt: HostRuntime) -> Result<(), Fail> {
    // Two numbers, the quotient of the first by the second, and the second modulo the first.
    let rows = [
        (i64::MIN, -1, Err("Overflow"), Ok(-1)),
        (-3, 7, Err("NotWhole"), Ok(-2)),
        (3, -7, Err("NotWhole"), Ok(2)),
        (-12, -3, Ok(4), Ok(-3)),
        (-1, i64::MIN, Err("NotWhole"), Ok(0)),
        (i64::MAX, i64::MIN, Err("NotWhole"), Ok(i64::MAX - 1)),
        (0, 5, Ok(0), Err("DivideByZero")),
        (5, 0, Err("DivideByZero"), Ok(0)),
    ];
    for (w, x, quotient, modulus) in rows {
        assert_eq!(rt; shown(num::div(w, x)), quotient, "{w} ÷ {x}");
        assert_eq!(rt; shown(num::modulus(w, x)), modulus, "{w} | {x}");
    }
    assert_eq!(rt; shown(num::reciprocal(-1)), Ok(-1));
    Ok(())
}

#[test]
fn spans_and_ors(rt: HostRuntime) -> Result<(), Fail> {
    // Two numbers, how far they span, and their or.
    let rows = [
        (i64::MAX, 0, Err("Overflow"), Ok(i64::MAX)),
        (0, i64::MIN, Err("Overflow"), Ok(i64::MIN)),
        (-2, i64::MAX, Ok(i64::MIN), Err("Overflow")),
        (i64::MAX, 1, Ok(i64::MAX), Ok(1)),
        (1, i64::MAX, Ok(2 - i64::MAX), Ok(1)),
    ];
    for (w, x, span, or) in rows {
        assert_eq!(rt; shown(num::span(w, x)), span, "{w} ¬ {x}");
        assert_eq!(rt; shown(num::or_of(w, x)), or, "{w} ∨ {x}");
    }
    assert_eq!(rt; shown(num::abs(i64::MIN)), Err("Overflow"));
    assert_eq!(rt; shown(num::not_of(i64::MIN)), Err("Overflow"));
    Ok(())
}

#[test]
fn characters(rt: HostRuntime) -> Result<(), Fail> {
    assert_eq!(rt; chr::shift('a', 2).ok(), Some('c'));
    assert_eq!(rt; chr::shift('\u{D7FF}', 1).ok(), None);
    assert_eq!(rt; chr::shift('a', i64::MAX).ok(), None);
    assert_eq!(rt; chr::minus('a', 'c'), -2);
    Ok(())
}

// The number, or none where it overflows.
fn number(answer: Result<i64, Fault>) -> Result<Option<i64>, Fail> {
    match answer {
        Ok(number) => Ok(Some(number)),
        Err(Fault::Overflow) => Ok(None),
        Err(_) => Err(Fail::from("another fault")),
    }
}

#[test]
fn two_numbers(rt: HostRuntime) -> Result<(), Fail> {
    // Two numbers, and their sum, difference and product.
    let rows = [
        (3, -4, Some(-1), Some(7), Some(-12)),
        (i64::MAX, 1, None, Some(9223372036854775806), Some(i64::MAX)),
        (i64::MIN, 1, Some(-i64::MAX), None, Some(i64::MIN)),
        (i64::MIN, -1, None, Some(-i64::MAX), None),
        (-1, i64::MIN, None, Some(i64::MAX), None),
        (0, i64::MIN, Some(i64::MIN), None, Some(0)),
        (i64::MAX, i64::MIN, Some(-1), None, None),
        (i64::MIN, i64::MIN, None, Some(0), None),
        (3037000500, 3037000500, Some(6074001000), Some(0), None),
    ];
    for (w, x, sum, difference, product) in rows {
        assert_eq!(rt; number(num::add(w, x))?, sum, "{w} + {x}");
        assert_eq!(rt; number(num::sub(w, x))?, difference, "{w} - {x}");
        assert_eq!(rt; number(num::mul(w, x))?, product, "{w} × {x}");
    }
    Ok(())
}

#[test]
fn one_number(rt: HostRuntime) -> Result<(), Fail> {
    // A number, its negative and its sign.
    let rows = [
        (0, Some(0), 0),
        (1, Some(-1), 1),
        (-1, Some(1), -1),
        (i64::MAX, Some(-i64::MAX), 1),
        (i64::MIN, None, -1),
    ];
    for (x, negative, sign) in rows {
        assert_eq!(rt; number(num::negate(x))?, negative, "-{x}");
        assert_eq!(rt; num::sign(x), sign, "×{x}");
    }
    Ok(())
}

#[test]
fn texts_names_and_rows(rt: HostRuntime) -> Result<(), Fail> {
    let alloc = rt.alloc();
    let text = Text::new(alloc, &['¯', 'a', '¯'])?;
    assert_eq!(rt; text.chars(), ['¯', 'a', '¯'].as_slice());
    let name = Name::new(alloc, &['z', '0', 'a', '9'])?;
    assert_eq!(rt; name.chars(), ['z', '0', 'a', '9'].as_slice());
    let row = Row::new(Vec::from_slice(alloc, &[3, 1, 2])?);
    assert_eq!(rt; row.list(), [3, 1, 2].as_slice());
    assert_eq!(rt; row.into_vec().as_slice(), [3, 1, 2].as_slice());
    Ok(())
}
