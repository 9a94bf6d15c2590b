use crate::{BodyMarks, HeadError, block_class, header};
use bqn_base::{Name, Place, Role};
use bqn_syntax::{Class, Header, Kind, Special, Token};
use std::alloc::Global;

fn word(alloc: Global, role: Role) -> Result<Kind, HeadError> {
    Ok(Kind::Word(Name::new(alloc, &['a'])?, role))
}

/// `a`, `F`, `M` and `C` are names of each role, `S` stands for `𝕊`, and `w`, `x`, `f` and `g` for
/// the special names like them.
fn token(alloc: Global, c: char) -> Result<Token, HeadError> {
    let kind = match c {
        'a' => word(alloc, Role::Subject)?,
        'F' => word(alloc, Role::Function)?,
        'M' => word(alloc, Role::Mod1)?,
        'C' => word(alloc, Role::Mod2)?,
        'S' => Kind::Special(Special::Own, Role::Function),
        'w' => Kind::Special(Special::Left, Role::Subject),
        'x' => Kind::Special(Special::Right, Role::Subject),
        'f' => Kind::Special(Special::LeftOperand, Role::Subject),
        'g' => Kind::Special(Special::RightOperand, Role::Subject),
        '1' => Kind::Number(1),
        _ => Kind::Punct(c),
    };
    Ok(Token {
        kind,
        place: Place { line: 1, column: 1 },
    })
}

/// Whether a header has a left argument, a left operand, a right operand and a right argument.
fn parts(header: &Header) -> [bool; 4] {
    [
        header.left.is_some(),
        header.left_operand.is_some(),
        header.right_operand.is_some(),
        header.right.is_some(),
    ]
}

#[test]
fn headers(rt: HostRuntime) -> Result<(), HeadError> {
    let rows: [(&[char], Option<[bool; 4]>); 14] = [
        (&['F'], Some([false, false, false, false])),
        (&['S', 'x'], Some([false, false, false, true])),
        (&['w', 'S', 'a'], Some([true, false, false, true])),
        (&['f', 'M'], Some([false, true, false, false])),
        (&['F', 'C', 'g', 'x'], Some([false, true, true, true])),
        (&['w', 'f', 'M', 'x'], Some([true, true, false, true])),
        (
            &['S', '⟨', 'a', ',', '1', '⟩'],
            Some([false, false, false, true]),
        ),
        (&['S', 'a', '‿', '·'], Some([false, false, false, true])),
        (&[], None),
        (&['a'], None),
        (&['w', 'S'], None),
        (&['S', 'F'], None),
        (&['f', 'C', 'f'], None),
        (&['S', '⟨', 'a'], None),
    ];
    for (text, wanted) in rows {
        let mut piece = Vec::new(rt.alloc());
        for c in text {
            piece.push(token(rt.alloc(), *c)?)?;
        }
        assert!(rt; piece.len() <= 6);
        let found = match header(rt.alloc(), &piece) {
            Ok(header) => Some(parts(&header)),
            Err(HeadError::Bad) => None,
            Err(HeadError::Memory) => return Err(HeadError::Memory),
        };
        assert_eq!(rt; found, wanted, "at {text:?}");
    }
    Ok(())
}

/// A body with a header for `F`, with a predicate for `?`, without a statement for `0`, and else
/// with the special name.
fn marks(alloc: Global, c: char) -> Result<BodyMarks, HeadError> {
    let mut header = None;
    if c == 'F' {
        header = Some(Header {
            left: None,
            left_operand: None,
            own: token(alloc, 'F')?,
            right_operand: None,
            right: None,
        });
    }
    Ok(BodyMarks {
        header,
        predicate: c == '?',
        statements: if c == '0' { 0 } else { 1 },
        args: c == 'x',
        one: c == 'f',
        one_self: false,
        two: c == 'g',
    })
}

#[test]
fn classes(rt: HostRuntime) -> Result<(), HeadError> {
    let rows: [(&[char], Option<Class>); 12] = [
        (&['1'], Some(Class::Immediate)),
        (&['?', '1'], Some(Class::Immediate)),
        (&['1', '1'], None),
        (&['x', 'x'], Some(Class::Function)),
        (&['x', 'x', 'x'], None),
        (&['F', 'x'], Some(Class::Function)),
        (&['x', 'F'], None),
        (&['f'], Some(Class::Mod1)),
        (&['f', 'x'], Some(Class::Mod1Deferred)),
        (&['g'], Some(Class::Mod2)),
        (&['F', 'g'], None),
        (&['0'], None),
    ];
    for (text, wanted) in rows {
        let mut bodies = Vec::new(rt.alloc());
        for c in text {
            bodies.push(marks(rt.alloc(), *c)?)?;
        }
        assert_eq!(rt; block_class(&bodies), wanted, "at {text:?}");
    }
    Ok(())
}
