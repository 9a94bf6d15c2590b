//! Every body of a code.

ghost use Rattle.std.specs.Prelude.{◌≡◌, ◌+◌, ◌<◌, ◌^◌, IsTrue, length};
ghost use Rattle.std.specs.List.{All, list_all};
ghost use Rattle.bqn_code.specs.Conditions.{block_is_small, is_kind_for as kind_for};
ghost use Rattle.bqn_code.specs.Plain.{code_of};
ghost use Rattle.bqn_verify.specs.Judged.{all_are_judged as all_judged, bodies_are_judged as bodies_judged, body_is_judged as body_judged, is_judged as judged, is_small};
ghost use Rattle.bqn_verify.specs.Rows.{IsStart};

use crate::exports::exports_are_judged;
use crate::heights::is_balanced;
use crate::instructions::{is_judged, waits};
use crate::slots::{Start, starts_before};
use bqn_code::{Block, Body, Code, Instr};
use bqn_syntax::Class;

fn is_kind_for(arguments: bool, kind: u8) -> bool
    ensures { result ≡ kind_for arguments kind }
{
    if arguments { kind <= 2 } else { kind == 0 }
}

fn instructions_are_judged(
    code: &Code,
    starts: &[Start],
    number: u64,
    class: Class,
    all: &[Instr],
) -> bool
    requires starts { All (IsStart (code_of code.now).blocks) starts.now }
    ensures { result ≡ list_all (judged (code_of code.now) number class) all.now }
{
    for i in all {
        if !is_judged(code, starts, number, class, *i) {
            return false;
        }
    }
    true
}

fn body_is_judged(code: &Code, starts: &[Start], number: u64, class: Class, body: &Body) -> bool
    requires starts { All (IsStart (code_of code.now).blocks) starts.now }
    ensures { result ≡ body_judged (code_of code.now) number class body.now }
{
    is_kind_for(waits(class), body.kind)
        && exports_are_judged(code, body)
        && instructions_are_judged(code, starts, number, class, body.code.list())
        && is_balanced(body.code.list())
}

fn bodies_are_judged(
    code: &Code,
    starts: &[Start],
    number: u64,
    class: Class,
    bodies: &[Body],
) -> bool
    requires starts { All (IsStart (code_of code.now).blocks) starts.now }
    requires few { number + length bodies.now < 2 ^ 64 }
    ensures { result ≡ bodies_judged (code_of code.now) number class bodies.now }
{
    let mut next = number;
    for body in bodies {
        if !body_is_judged(code, starts, next, class, body) {
            return false;
        }
        next += 1;
    }
    true
}

#[tactic(auto, using(crate::proofs::Bounds::few_laws))]
fn all_are_judged(code: &Code, blocks: &[Block]) -> bool
    requires own { blocks.now ≡ (code_of code.now).blocks }
    requires few { length blocks.now < 2 ^ 32 }
    requires small { IsTrue (list_all block_is_small blocks.now) }
    ensures { result ≡ all_judged (code_of code.now) 0 blocks.now }
{
    // the blocks around the one at hand
    let mut starts = [Start { block: 0, first: 0 }; 256];
    let mut many: usize = 0;
    let mut number: u64 = 0;
    for (i, block) in blocks.iter().enumerate() {
        let around = starts_before(&starts, many.min(255), u64::from(block.parent));
        starts[around] = Start {
            block: i,
            first: number,
        };
        many = around + 1;
        let bodies = block.bodies.list();
        if !bodies_are_judged(code, &starts[..many], number, block.class, bodies) {
            return false;
        }
        number += bodies.len() as u64;
    }
    true
}

/// Whether every body of a code passes, where the code is not too large.
#[tactic(auto, using(crate::proofs::Bounds::few_laws))]
pub fn bodies_pass(code: &Code) -> bool
    requires { IsTrue (is_small (code_of code.now)) }
    ensures { result ≡ all_judged (code_of code.now) 0 (code_of code.now).blocks }
{
    all_are_judged(code, code.blocks.list())
}
