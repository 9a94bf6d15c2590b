ghost use Rattle.std.specs.Prelude.{IfOk, IsTrue, false};
ghost use Rattle.bqn_code.specs.Places.{has_places};

use crate::verify;
use bqn_base::Row;
use bqn_code::{Block, Body, Code, Const, Instr};
use bqn_syntax::Class;
use std::alloc::Global;
use std::test::Fail;

// A body with one variable.
fn body(alloc: Global, instructions: &[Instr]) -> Result<Body, Fail>
    ensures { IfOk result (λ b. IsTrue (has_places false b)) }
{
    let mut code = Vec::new(alloc);
    for i in instructions {
        code.push(*i)?;
    }
    Ok(Body {
        kind: 0,
        slots: 1,
        exports: Row::new(Vec::new(alloc)),
        code: Row::new(code),
        places: Row::new(Vec::new(alloc)),
    })
}

// A program of one body, with one constant.
fn program(alloc: Global, instructions: &[Instr]) -> Result<Code, Fail> {
    let mut bodies = Vec::new(alloc);
    bodies.push(body(alloc, instructions)?)?;
    let mut blocks = Vec::new(alloc);
    blocks.push(Block {
        class: Class::Immediate,
        parent: 0,
        bodies: Row::new(bodies),
    })?;
    let mut constants = Vec::new(alloc);
    constants.push(Const::Number(2))?;
    Ok(Code {
        placed: false,
        names: Row::new(Vec::new(alloc)),
        constants: Row::new(constants),
        patterns: Row::new(Vec::new(alloc)),
        blocks: Row::new(blocks),
    })
}

// Whether the program of these instructions is verified.
fn passes(alloc: Global, instructions: &[Instr]) -> Result<bool, Fail> {
    match verify(program(alloc, instructions)?) {
        Ok(_) => Ok(true),
        Err(_) => Ok(false),
    }
}

const PUSH: Instr = Instr::Const(0);

#[test]
fn programs_that_pass(rt: HostRuntime) -> Result<(), Fail> {
    let alloc = rt.alloc();
    assert!(rt; passes(alloc, &[Instr::Space])?);
    assert!(rt;
        passes(
            alloc,
            &[PUSH, Instr::Given(0), PUSH, Instr::Call2, Instr::Return]
        )?
    );
    assert!(rt; passes(alloc, &[PUSH, Instr::Define { slot: 0 }, Instr::Return])?);
    Ok(())
}

#[test]
fn stacks_that_are_refused(rt: HostRuntime) -> Result<(), Fail> {
    let alloc = rt.alloc();
    assert!(rt; !passes(alloc, &[PUSH])?);
    assert!(rt; !passes(alloc, &[Instr::Return])?);
    assert!(rt; !passes(alloc, &[PUSH, PUSH, Instr::Return])?);
    assert!(rt; !passes(alloc, &[PUSH, Instr::Space])?);
    Ok(())
}

#[test]
fn objects_that_are_missing(rt: HostRuntime) -> Result<(), Fail> {
    let alloc = rt.alloc();
    assert!(rt; !passes(alloc, &[Instr::Const(1), Instr::Return])?);
    assert!(rt; !passes(alloc, &[Instr::Given(70), Instr::Return])?);
    assert!(rt; !passes(alloc, &[Instr::Run(0), Instr::Return])?);
    assert!(rt; !passes(alloc, &[Instr::Load { up: 0, slot: 1 }, Instr::Return])?);
    assert!(rt; !passes(alloc, &[Instr::Load { up: 1, slot: 0 }, Instr::Return])?);
    assert!(rt; !passes(alloc, &[PUSH, Instr::Field(0), Instr::Return])?);
    assert!(rt; !passes(alloc, &[PUSH, Instr::Bind(0), Instr::Return])?);
    assert!(rt; !passes(alloc, &[PUSH, Instr::Check, PUSH, Instr::Return])?);
    assert!(rt; !passes(alloc, &[Instr::Left, Instr::Return])?);
    assert!(rt; !passes(alloc, &[Instr::Modifier, Instr::Return])?);
    Ok(())
}
