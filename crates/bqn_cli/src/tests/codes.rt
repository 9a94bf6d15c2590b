use bqn_base::Place;
use bqn_code::{Block, Body, Code, PatternCode};
use bqn_compile::compile;
use bqn_parse::parse;
use bqn_scope::{Names, resolve};
use bqn_token::tokens;
use std::alloc::{AllocError, Global};
use std::test::Fail;

/// Adds a pattern in brackets.
fn list_pattern(alloc: Global, out: &mut String, pattern: &PatternCode) -> Result<(), AllocError> {
    match pattern {
        PatternCode::Skip => out.push_str("skip"),
        PatternCode::Define { slot, name } => {
            out.push_str(format!(in alloc; "define {slot} {name}")?.as_str())
        }
        PatternCode::Change { up, slot, name } => {
            out.push_str(format!(in alloc; "change {up} {slot} {name}")?.as_str())
        }
        PatternCode::Literal(number) => {
            out.push_str(format!(in alloc; "literal {number}")?.as_str())
        }
        PatternCode::List(all) => {
            out.push_str("[")?;
            for part in all.list() {
                list_pattern(alloc, out, part)?;
                out.push_str(";")?;
            }
            out.push_str("]")
        }
    }
}

/// Adds a body: its head, and a line for each instruction with its place.
fn list_body(alloc: Global, out: &mut String, body: &Body) -> Result<(), AllocError> {
    let (kind, slots) = (body.kind, body.slots);
    out.push_str(format!(in alloc; "body {kind} slots {slots}")?.as_str())?;
    for (name, slot) in body.exports.list() {
        out.push_str(format!(in alloc; " export {name} {slot}")?.as_str())?;
    }
    let places = body.places.list();
    for (number, i) in body.code.list().iter().enumerate() {
        let Place { line, column } = match places.get(number) {
            Some(place) => *place,
            None => Place { line: 0, column: 0 },
        };
        out.push_str(format!(in alloc; "\n{line}:{column} {i:?}")?.as_str())?;
    }
    out.push_str("\n")
}

fn list_block(alloc: Global, out: &mut String, block: &Block) -> Result<(), AllocError> {
    let (class, parent) = (block.class, block.parent);
    out.push_str(format!(in alloc; "{class:?} in {parent}\n")?.as_str())?;
    for body in block.bodies.list() {
        list_body(alloc, out, body)?;
    }
    Ok(())
}

/// All of a code as text.
fn listed(alloc: Global, code: &Code) -> Result<String, AllocError> {
    let mut out = String::new(alloc);
    if !code.placed {
        out.push_str("no places\n")?;
    }
    for name in code.names.list() {
        out.push_str("name")?;
        for letter in name.chars() {
            out.push_str(format!(in alloc; " {letter}")?.as_str())?;
        }
        out.push_str("\n")?;
    }
    for constant in code.constants.list() {
        out.push_str(format!(in alloc; "{constant:?}\n")?.as_str())?;
    }
    for pattern in code.patterns.list() {
        list_pattern(alloc, &mut out, pattern)?;
        out.push_str("\n")?;
    }
    for block in code.blocks.list() {
        list_block(alloc, &mut out, block)?;
    }
    Ok(out)
}

/// Whether this source has this code.
fn has_code(rt: &HostRuntime, source: &str, wanted: &str) -> Result<bool, Fail> {
    let alloc = rt.alloc();
    let Ok(spelled) = tokens(alloc, source.as_bytes()) else {
        return Ok(false);
    };
    let Ok(tree) = parse(alloc, &spelled) else {
        return Ok(false);
    };
    let Ok(resolved) = resolve(alloc, tree, &Names::new(alloc)) else {
        return Ok(false);
    };
    let Ok(code) = compile(alloc, &resolved) else {
        return Ok(false);
    };
    let found = listed(alloc, &code)?;
    Ok(found.as_str() == wanted)
}

#[test]
fn code_of_a_block(rt: HostRuntime) -> Result<(), Fail> {
    let code = "\
Number(1)
Number(0)
Number(2)
Immediate in 0
body 0 slots 1
1:3 Block(1)
1:1 Define { slot: 0 }
1:1 Pop
1:19 Const(2)
1:17 Load { up: 0, slot: 0 }
1:17 Call1
1:17 Return
Function in 0
body 0 slots 0
1:6 Const(0)
1:5 Given(13)
1:4 Right
1:5 Call2
1:4 Check
1:11 Const(0)
1:10 Given(0)
1:9 Right
1:10 Call2
1:9 Return
body 0 slots 0
1:14 Const(1)
1:14 Return
";
    assert!(rt; has_code(&rt, "F←{𝕩>1? 𝕩+1; 0}⋄F 2", code)?);
    Ok(())
}

#[test]
fn code_of_a_pattern(rt: HostRuntime) -> Result<(), Fail> {
    let code = "\
name a
name b
Number(1)
Number(2)
[define 0 0;define 1 1;]
Immediate in 0
body 0 slots 2
1:8 Const(0)
1:10 Const(1)
1:8 List(2)
1:2 Bind(0)
1:2 Pop
1:13 Load { up: 0, slot: 0 }
1:13 Return
";
    assert!(rt; has_code(&rt, "⟨a,b⟩←⟨1,2⟩⋄a", code)?);
    Ok(())
}

#[test]
fn code_of_a_train(rt: HostRuntime) -> Result<(), Fail> {
    let code = "\
Number(2)
Number(3)
Number(5)
Immediate in 0
body 0 slots 0
1:6 Const(0)
1:8 Const(1)
1:6 List(2)
1:4 Given(50)
1:3 Given(0)
1:4 Derive1
1:2 Given(1)
1:2 Train2
1:2 Call1
1:2 Pop
2:7 Const(2)
2:5 Given(2)
2:4 Given(1)
2:3 Given(0)
2:3 Train3
2:1 Const(0)
2:3 Call2
2:1 Return
";
    assert!(rt; has_code(&rt, "(-+´)2‿3\n2(+-×)5", code)?);
    Ok(())
}

#[test]
fn code_of_an_export(rt: HostRuntime) -> Result<(), Fail> {
    let code = "\
name b
name a
Number(1)
Number(2)
Immediate in 0
body 0 slots 2 export 0 1 export 1 0
1:3 Const(0)
1:1 Define { slot: 0 }
1:1 Pop
1:9 Const(1)
1:8 Given(0)
1:7 Load { up: 0, slot: 0 }
1:8 Call2
1:5 Define { slot: 1 }
1:5 Pop
1:11 Space
";
    assert!(rt; has_code(&rt, "a←1⋄b⇐a+2⋄a⇐", code)?);
    Ok(())
}

#[test]
fn code_of_a_header(rt: HostRuntime) -> Result<(), Fail> {
    let code = "\
name w
name x
Number(3)
Number(1)
Number(2)
define 0 0
[define 1 1;literal 0;]
Immediate in 0
body 0 slots 1
1:3 Block(1)
1:1 Define { slot: 0 }
1:1 Pop
1:22 Const(2)
1:24 Const(0)
1:22 List(2)
1:20 Load { up: 0, slot: 0 }
1:18 Const(1)
1:20 Call2
1:18 Return
Function in 0
body 2 slots 2
1:4 Left
1:4 Match(0)
1:8 Right
1:8 Match(1)
1:15 Load { up: 0, slot: 1 }
1:14 Given(1)
1:13 Load { up: 0, slot: 0 }
1:14 Call2
1:13 Return
";
    assert!(rt; has_code(&rt, "F←{w 𝕊 x‿3: w-x}⋄1 F 2‿3", code)?);
    Ok(())
}
