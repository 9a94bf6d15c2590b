ghost use Rattle.std.specs.Prelude.{IsTrue};
ghost use Rattle.bqn_base.specs.Names.{is_name_character};

use crate::{Names, NamesError, Use, resolve};
use bqn_base::{Name, Place, Role, Row};
use bqn_syntax::{Arrow, Expr, Kind, Part, Pattern, Step, Stmt, Token, Tree};
use std::alloc::Global;
use std::test::Fail;

#[test]
fn names_have_places(rt: HostRuntime) -> Result<(), Fail> {
    let alloc = rt.alloc();
    let mut names = Names::new(alloc);
    // A name, its place before it is added, and its place after.
    let rows = [
        (['x'].as_slice(), None, 0),
        (['s', 'u', 'm'].as_slice(), None, 1),
        (['x'].as_slice(), Some(0), 0),
        (['x', '1'].as_slice(), None, 2),
        (['s', 'u', 'm'].as_slice(), Some(1), 1),
        (['s'].as_slice(), None, 3),
        (['x', '1'].as_slice(), Some(2), 2),
    ];
    for (spelling, before, after) in rows {
        let name = Name::new(alloc, spelling)?;
        assert_eq!(rt; names.position(&name), before);
        assert_eq!(rt; names.add(&name)?, after);
        assert_eq!(rt; names.position(&name), Some(after));
    }
    Ok(())
}

// A letter for each number below 16.
fn letter(number: u16) -> char
    ensures { IsTrue (is_name_character result) }
{
    let letters = [
        'a', 'b', 'c', 'd', 'e', 'f', 'g', 'h', 'i', 'j', 'k', 'l', 'm', 'n', 'o', 'p',
    ];
    letters[(number % 16) as usize]
}

// A name for each number.
fn name_of(alloc: Global, number: u16) -> Result<Name, Fail> {
    let spelling = [
        letter(number / 4096),
        letter(number / 256),
        letter(number / 16),
        letter(number),
    ];
    Ok(Name::new(alloc, &spelling)?)
}

#[test]
fn the_65536th_name_is_refused(rt: HostRuntime) -> Result<(), Fail> {
    let alloc = rt.alloc();
    let mut names = Names::new(alloc);
    for number in 0..65535 {
        assert_eq!(rt; names.add(&name_of(alloc, number)?)?, number);
    }
    let last = name_of(alloc, 65535)?;
    assert!(rt; matches!(names.add(&last), Err(NamesError::Full)));
    assert_eq!(rt; names.position(&last), None);
    assert_eq!(rt; names.add(&name_of(alloc, 65534)?)?, 65534);
    Ok(())
}

// The name `a` in this column.
fn word(alloc: Global, column: u32) -> Result<Token, Fail> {
    Ok(Token {
        kind: Kind::Word(Name::new(alloc, ['a'].as_slice())?, Role::Subject),
        place: Place { line: 1, column },
    })
}

// The tree of `a←1⋄a`.
fn program(alloc: Global) -> Result<Tree, Fail> {
    let one = Token {
        kind: Kind::Number(1),
        place: Place { line: 1, column: 3 },
    };
    let mut steps = Vec::new(alloc);
    steps.push(Step::Assign {
        target: Pattern::Name(word(alloc, 1)?),
        arrow: Arrow::Define,
    })?;
    let mut statements = Vec::new(alloc);
    statements.push(Stmt::Eval(Expr::Value {
        last: Some(Part::Leaf(one)),
        steps: Row::new(steps),
    }))?;
    statements.push(Stmt::Eval(Expr::Value {
        last: Some(Part::Leaf(word(alloc, 5)?)),
        steps: Row::new(Vec::new(alloc)),
    }))?;
    Ok(Tree {
        statements: Row::new(statements),
    })
}

#[test]
fn a_name_is_defined_and_read(rt: HostRuntime) -> Result<(), Fail> {
    let alloc = rt.alloc();
    let so = resolve(alloc, program(alloc)?, &Names::new(alloc))?;
    let use_at = [1, 5];
    assert_eq!(rt; so.uses.list().len(), 2);
    for (found, column) in so.uses.list().iter().zip(use_at) {
        let wanted = Use {
            up: 0,
            slot: 0,
            place: Place { line: 1, column },
        };
        assert_eq!(rt; *found, wanted);
    }
    assert_eq!(rt; so.bodies.list().len(), 1);
    Ok(())
}
