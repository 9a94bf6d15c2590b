use super::compile;
use crate::code::Instr;
use crate::error::CompileError;
use bqn_base::{Place, Row};
use bqn_syntax::{Expr, Kind, Part, Stmt, Token, Tree};
use std::alloc::{AllocError, Global};
use std::test::Fail;

fn placed(kind: Kind) -> Token {
    let place = Place { line: 1, column: 1 };
    Token { kind, place }
}

/// The tree of a source that is one number.
fn number(alloc: Global, number: i64) -> Result<Tree, AllocError> {
    let last = Some(Part::Leaf(placed(Kind::Number(number))));
    let steps = Row::new(Vec::new(alloc));
    let mut statements = Vec::new(alloc);
    statements.push(Stmt::Eval(Expr::Value { last, steps }))?;
    let statements = Row::new(statements);
    Ok(Tree { statements })
}

#[test]
fn code_of_a_number(rt: HostRuntime) -> Result<(), Fail> {
    let code = compile(rt.alloc(), &[], &number(rt.alloc(), 2)?)?;
    assert_eq!(rt; code.as_slice(), [Instr::Const(2), Instr::Pop].as_slice());
    Ok(())
}

fn blanks(alloc: Global, count: u32) -> Result<Vec<Token>, AllocError> {
    let mut tokens = Vec::new(alloc);
    for _ in 0..count {
        tokens.push(placed(Kind::Punct(',')))?;
    }
    Ok(tokens)
}

#[test]
fn lists_of_many_tokens(rt: HostRuntime) -> Result<(), Fail> {
    let alloc = rt.alloc();
    let empty = Tree {
        statements: Row::new(Vec::new(alloc)),
    };
    for (count, refused) in [(4096, None), (4097, Some(CompileError::NotYet))] {
        let tokens = blanks(alloc, count)?;
        let given = compile(alloc, &tokens, &empty).err();
        assert_eq!(rt; given, refused, "at {count}");
    }
    Ok(())
}
