//! The program's block, and where the other blocks stand.

ghost use Rattle.std.specs.Prelude.{◌≡◌, ◌<◌, ◌^◌, IsTrue, length};
ghost use Rattle.std.specs.List.{list_all, list_any};
ghost use Rattle.bqn_code.specs.Conditions.{block_is_small, blocks_have_bodies as have_bodies, is_immediate as immediate, is_only_body as only_body, may_fail as fails};
ghost use Rattle.bqn_code.specs.Plain.{code_of};
ghost use Rattle.bqn_verify.specs.Judged.{blocks_are_judged as judged, is_small as has_few, parents_in, program_in};

use bqn_code::{Block, Body, Code, Instr};
use bqn_syntax::Class;

pub fn is_immediate(class: Class) -> bool
    ensures { result ≡ immediate class }
{
    match class {
        Class::Immediate => true,
        _ => false,
    }
}

/// Whether it may go to the next body.
fn may_fail(i: Instr) -> bool
    ensures { result ≡ fails i }
{
    match i {
        Instr::Match(_) | Instr::Check => true,
        _ => false,
    }
}

fn may_one_fail(code: &[Instr]) -> bool
    ensures { result ≡ list_any fails code.now }
{
    code.iter().any(|i| may_fail(*i))
}

#[tactic(auto, using(crate::proofs::Programs::program_laws))]
fn is_only_body(bodies: &[Body]) -> bool
    ensures { result ≡ only_body bodies.now }
{
    if bodies.len() != 1 {
        return false;
    }
    let body = &bodies[0];
    body.kind == 0 && !may_one_fail(body.code.list())
}

#[tactic(auto, using(crate::proofs::Programs::program_laws))]
fn has_program(blocks: &[Block]) -> bool
    ensures { result ≡ program_in blocks.now }
{
    if blocks.is_empty() {
        return false;
    }
    let block = &blocks[0];
    is_immediate(block.class) && block.parent == 0 && is_only_body(block.bodies.list())
}

/// Whether the parent of each block but the first is one of the bodies before it.
#[tactic(auto, using(crate::proofs::Bounds::few_laws, crate::proofs::Programs::parent_laws))]
fn have_parents(blocks: &[Block]) -> bool
    requires few { length blocks.now < 2 ^ 32 }
    requires small { IsTrue (list_all block_is_small blocks.now) }
    ensures { result ≡ parents_in blocks.now }
{
    if blocks.is_empty() {
        return true;
    }
    let first = &blocks[0];
    let mut before = first.bodies.list().len() as u64;
    for i in 1..blocks.len() {
        let block = &blocks[i];
        if u64::from(block.parent) >= before {
            return false;
        }
        before += block.bodies.list().len() as u64;
    }
    true
}

fn blocks_have_bodies(code: &Code) -> bool
    ensures { result ≡ have_bodies (code_of code.now) }
{
    code.blocks
        .list()
        .iter()
        .all(|block| !block.bodies.list().is_empty())
}

/// Whether the program is there, and the blocks stand in bodies before them and have bodies.
#[tactic(auto, using(crate::proofs::Bounds::few_laws, crate::proofs::Programs::parent_laws))]
pub fn blocks_are_judged(code: &Code) -> bool
    requires { IsTrue (has_few (code_of code.now)) }
    ensures { result ≡ judged (code_of code.now) }
{
    has_program(code.blocks.list()) && have_parents(code.blocks.list()) && blocks_have_bodies(code)
}
