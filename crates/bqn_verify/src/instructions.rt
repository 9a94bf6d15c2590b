//! Whether an instruction has what it names.

ghost use Rattle.std.specs.Prelude.{◌≡◌, slice_get};
ghost use Rattle.std.specs.List.{All};
ghost use Rattle.bqn_syntax.specs.grammar.Classes.{waits as waits_for};
ghost use Rattle.bqn_code.specs.Conditions.{is_modifier as modifier, is_modifier2 as modifier2, leaves, is_no_literal, pattern_passes};
ghost use Rattle.bqn_code.specs.Plain.{code_of};
ghost use Rattle.bqn_verify.specs.Judged.{is_judged as judged, names_block as block_named, stores as stored};
ghost use Rattle.bqn_verify.specs.Rows.{IsStart};

use crate::patterns::{has_no_literal, leaves_have_slots};
use crate::program::is_immediate;
use crate::slots::{Start, has_slot};
use bqn_code::{Code, Instr};
use bqn_syntax::Class;

/// Whether it waits for arguments.
pub fn waits(class: Class) -> bool
    ensures { result ≡ waits_for class }
{
    match class {
        Class::Function | Class::Mod1Deferred | Class::Mod2Deferred => true,
        _ => false,
    }
}

fn is_modifier(class: Class) -> bool
    ensures { result ≡ modifier class }
{
    match class {
        Class::Immediate | Class::Function => false,
        _ => true,
    }
}

fn is_modifier2(class: Class) -> bool
    ensures { result ≡ modifier2 class }
{
    match class {
        Class::Mod2 | Class::Mod2Deferred => true,
        _ => false,
    }
}

/// Whether the block with this number stands in the body with this number, and is immediate or not.
#[tactic(auto, using(crate::proofs::Named::named_laws))]
fn names_block(code: &Code, number: u64, block: u16, immediate: bool) -> bool
    ensures { result ≡ block_named (code_of code.now) number block immediate }
{
    if block == 0 {
        return false;
    }
    match code.blocks.list().get(block as usize) {
        None => false,
        Some(block) => u64::from(block.parent) == number && is_immediate(block.class) == immediate,
    }
}

/// Whether the pattern is there, and the body with this number has its slots.
#[tactic(auto, using(crate::proofs::Named::named_laws))]
fn stores(code: &Code, starts: &[Start], number: u64, k: u32) -> bool
    requires starts { All (IsStart (code_of code.now).blocks) starts.now }
    ensures { result ≡ stored (code_of code.now) number k }
{
    match code.patterns.list().get(k as usize) {
        None => false,
        Some(p) => leaves_have_slots(code, starts, number, p),
    }
}

/// Whether the pattern has no literals, if it is there.
#[tactic(auto, using(crate::proofs::Named::named_laws))]
fn binds_no_literal(code: &Code, k: u32) -> bool
    ensures { result ≡ pattern_passes (leaves is_no_literal) (slice_get (code_of code.now).patterns k) }
{
    match code.patterns.list().get(k as usize) {
        None => true,
        Some(p) => has_no_literal(p),
    }
}

/// Whether an instruction has what it names, in a body with this number of a block of this class.
pub fn is_judged(code: &Code, starts: &[Start], number: u64, class: Class, i: Instr) -> bool
    requires starts { All (IsStart (code_of code.now).blocks) starts.now }
    ensures { result ≡ judged (code_of code.now) number class i }
{
    match i {
        Instr::Const(k) => (k as usize) < code.constants.list().len(),
        Instr::Given(k) => k < 70,
        Instr::Block(b) => names_block(code, number, b, false),
        Instr::Run(b) => names_block(code, number, b, true),
        Instr::Load { up, slot } => has_slot(code, starts, number, up, slot),
        Instr::Define { slot } => has_slot(code, starts, number, 0, slot),
        Instr::Change { up, slot } => has_slot(code, starts, number, up, slot),
        Instr::Field(k) => (k as usize) < code.names.list().len(),
        Instr::Bind(k) => stores(code, starts, number, k) && binds_no_literal(code, k),
        Instr::Match(k) => stores(code, starts, number, k),
        Instr::Left | Instr::Right | Instr::Own => waits(class),
        Instr::LeftOperand | Instr::Modifier => is_modifier(class),
        Instr::RightOperand => is_modifier2(class),
        _ => true,
    }
}
