//! The instructions of single tokens.

ghost use Rattle.std.specs.Prelude.{◌≡◌, IfOk, Some, map, position};
ghost use Rattle.bqn_syntax.specs.scope.Scope.{same_name, system_names};
ghost use Rattle.bqn_scope.specs.Scopes.{use_shown};
ghost use Rattle.bqn_compile.specs.Pools.{constant_of, seen_at};
ghost use Rattle.bqn_compile.specs.Expressions.{load as load_of, store as store_of, special_instr as special_in, system_instr as system_in, literal_instr as literal_in, leaf_instr as leaf_in, block_instr as block_in};
ghost use Rattle.bqn_compile.specs.Shown.{constants_shown, setting_shown, slot_shown};

use crate::key::Key;
use crate::pools::{Pools, constant_at};
use bqn_base::Memory;
use bqn_code::Instr;
use bqn_scope::Use;
use bqn_syntax::{Arrow, Class, Kind, Special};

/// A variable: so many bodies outward, and the slot there.
#[derive(Clone, Copy, Debug, PartialEq, Eq)]
pub struct Slot {
    pub up: u16,
    pub slot: u16,
}

/// What the use with this number refers to.
pub fn seen(uses: &[Use], number: u32) -> Result<Slot, Memory>
    ensures { IfOk result (λ at. slot_shown at ≡ seen_at (map use_shown uses.now) number) }
{
    let Some(found) = uses.get(number as usize) else {
        return Ok(Slot { up: 0, slot: 0 });
    };
    match u16::try_from(found.slot) {
        Ok(slot) => Ok(Slot { up: found.up, slot }),
        Err(_) => Err(Memory),
    }
}

pub fn load(at: Slot) -> Instr
    ensures { result ≡ load_of (slot_shown at) }
{
    Instr::Load {
        up: at.up,
        slot: at.slot,
    }
}

/// Stores the top, which stays.
pub fn store(arrow: Arrow, at: Slot) -> Instr
    ensures { result ≡ store_of arrow (slot_shown at) }
{
    match arrow {
        Arrow::Change => Instr::Change {
            up: at.up,
            slot: at.slot,
        },
        Arrow::Define | Arrow::Export => Instr::Define { slot: at.slot },
    }
}

pub fn special(name: Special) -> Instr
    ensures { result ≡ special_in name }
{
    match name {
        Special::Left => Instr::Left,
        Special::Right => Instr::Right,
        Special::Own => Instr::Own,
        Special::LeftOperand => Instr::LeftOperand,
        Special::RightOperand => Instr::RightOperand,
        Special::Modifier => Instr::Modifier,
    }
}

pub fn system(name: &[char]) -> Instr
    ensures { result ≡ system_in (position (λ other. same_name other name.now) system_names) }
{
    if ['o', 'u', 't'].as_slice() == name {
        Instr::Given(64)
    } else if ['s', 'h', 'o', 'w'].as_slice() == name {
        Instr::Given(65)
    } else if ['r', 'e', 'p', 'r'].as_slice() == name {
        Instr::Given(66)
    } else if ['f', 'm', 't'].as_slice() == name {
        Instr::Given(67)
    } else if ['t', 'y', 'p', 'e'].as_slice() == name {
        Instr::Given(68)
    } else if ['a', 'r', 'g', 's'].as_slice() == name {
        Instr::Given(69)
    } else {
        Instr::Nothing
    }
}

pub fn literal(pools: &Pools, kind: &Kind) -> Result<Instr, Memory>
    ensures { IfOk result (λ i. i ≡ literal_in (constants_shown pools.now.constants.keys) (constant_of kind.now)) }
{
    let key = match Key::of(pools.alloc, kind) {
        Ok(Some(key)) => key,
        Ok(None) => return Ok(Instr::Nothing),
        Err(_) => return Err(Memory),
    };
    match u16::try_from(constant_at(&pools.constants, &key)) {
        Ok(number) => Ok(Instr::Const(number)),
        Err(_) => Err(Memory),
    }
}

/// A name, a literal or a primitive by itself, a name being the use with this number.
pub fn leaf(uses: &[Use], pools: &Pools, number: u32, kind: &Kind) -> Result<Instr, Memory>
    ensures { IfOk result (λ i. i ≡ leaf_in (setting_shown uses.now pools.now) number kind.now) }
{
    match kind {
        Kind::Word(_, _) => match seen(uses, number) {
            Ok(at) => Ok(load(at)),
            Err(e) => Err(e),
        },
        Kind::Special(name, _) => Ok(special(*name)),
        Kind::System(name, _) => Ok(system(name.chars())),
        Kind::Given(code) => Ok(Instr::Given(*code)),
        Kind::Number(_) | Kind::Char(_) | Kind::Text(_) | Kind::Punct(_) => literal(pools, kind),
    }
}

/// A block's value, or its run where it stands.
pub fn block(class: Class, number: u32) -> Result<Instr, Memory>
    ensures { IfOk result (λ i. i ≡ block_in class number) }
{
    let Ok(number) = u16::try_from(number) else {
        return Err(Memory);
    };
    match class {
        Class::Immediate => Ok(Instr::Run(number)),
        _ => Ok(Instr::Block(number)),
    }
}
