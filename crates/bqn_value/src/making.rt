ghost use Rattle.std.specs.Prelude.{◌≡◌, ◌∷◌, [], max, nat_le, length, true};
ghost use Rattle.bqn_rows.specs.Plain.{values, fill as fill_as};
ghost use Rattle.std.specs.Prelude.{IfOk, ◌≤◌};
ghost use Rattle.bqn_rows.specs.Limits.{places, size, is_shape, is_made_of, proper, all_proper, array as array_of, derived as derived_of, block_function as function_of};
ghost use Rattle.bqn_rows.specs.Relations.{extent, extents, fill_extent};
ghost use Rattle.bqn_rows.specs.Laws.{IsFill};
ghost use Rattle.bqn_value.specs.Meaning.{plain, plains, plain_fill, plain_fun, Makes, Weighed, LoadOf, LoadOfParts, Loaded, Checked, MakesFun, carries, maker as plain_maker};

use crate::value::{Arr, Fun, Held, HeldParts, Load, Maker, Parts, Value, ValueError};
use bqn_base::Memory;
use std::alloc::Global;
use std::rc::Rc;

const LIMIT: u64 = 4_194_304;

const HIGH: u8 = 128;

const AXES: usize = 16;

/// Whether a shape keeps the limits.
pub fn is_within(shape: &[u32]) -> bool
    ensures { result ≡ is_shape shape.now }
{
    if shape.len() > AXES {
        return false;
    }
    let mut product: u64 = 1;
    for axis in shape {
        product *= factor(*axis);
        if product > LIMIT {
            return false;
        }
    }
    true
}

/// An axis in the product of those that are not 0.
#[inline(always)]
fn factor(axis: u32) -> u64
    ensures { result ≡ size (axis ∷ []) }
{
    if axis == 0 { 1 } else { u64::from(axis) }
}

#[inline(always)]
fn higher(a: u8, b: u8) -> u8
    ensures { result ≡ max a b }
{
    if a < b { b } else { a }
}

/// What a value weighs, and how high it stands.
#[tactic(auto, using(crate::proofs::Within::limits))]
pub fn load(v: &Value) -> Load
    requires { proper (plain v.now) ≡ true }
    ensures { LoadOf result (plain v.now) }
{
    match v {
        Value::Array(a) => a.load(),
        Value::Fun(f) => load_of_function(f),
        _ => Load {
            weight: 1,
            height: 0,
        },
    }
}

#[tactic(auto, using(crate::proofs::Within::limits))]
fn load_of_function(f: &Fun) -> Load
    requires { proper (plain_fun f.now) ≡ true }
    ensures { LoadOf result (plain_fun f.now) }
{
    match f {
        Fun::Given(_) => Load {
            weight: 1,
            height: 0,
        },
        Fun::Derived { parts, .. } => {
            let l = parts.load();
            Load {
                weight: 1 + l.weight,
                height: 1 + l.height,
            }
        }
        Fun::Block { parts, .. } => {
            let l = parts.load();
            if parts.list().len() == 0 {
                Load {
                    weight: 1,
                    height: 0,
                }
            } else {
                Load {
                    weight: 1 + l.weight,
                    height: 1 + l.height,
                }
            }
        }
    }
}

/// The load of the elements of an array that is within the limits, or why it is not.
#[tactic(auto, using(crate::proofs::Within::checks))]
fn checked(shape: &[u32], elements: &[Value]) -> Result<Load, ValueError>
    requires { all_proper (values (plains elements.now)) ≡ true }
    ensures { Checked result shape.now (plains elements.now) }
{
    if !is_within(shape) {
        return Err(ValueError::TooLarge);
    }
    match loads(elements) {
        None => Err(ValueError::TooLarge),
        Some(l) => {
            if u64::from(l.weight) >= LIMIT {
                Err(ValueError::TooLarge)
            } else if l.height >= HIGH {
                Err(ValueError::TooDeep)
            } else {
                Ok(l)
            }
        }
    }
}

/// Whether arrays and fills nest at most so deep in it.
#[cycle(nests)]
fn nests_within(v: &Value, room: u32) -> bool
    ensures { result ≡ nat_le (extent (plain v.now)) room }
{
    match v {
        Value::Array(a) => room > 0 && array_nests_within(a, room - 1),
        _ => true,
    }
}

#[cycle(nests)]
#[tactic(auto, using(crate::proofs::Within::nests))]
fn array_nests_within(a: &Arr, room: u32) -> bool
    ensures { result ≡ nat_le (max (extents (values a.now.elements)) (fill_extent (fill_as a.now.fill))) room }
{
    all_nest_within(&a.held.elements, room)
        && match &a.held.fill {
            None => true,
            Some(f) => nests_within(f, room),
        }
}

#[cycle(nests)]
#[tactic(auto, using(crate::proofs::Within::nests))]
fn all_nest_within(vs: &[Value], room: u32) -> bool
    ensures { result ≡ nat_le (extents (values (plains vs.now))) room }
{
    for v in vs {
        if !nests_within(v, room) {
            return false;
        }
    }
    true
}

/// The fill that an array of these elements carries.
#[tactic(auto, using(crate::proofs::Within::carrying_laws))]
fn carried(elements: &[Value], fill: Option<Value>) -> Option<Value>
    ensures { fill_as (plain_fill result) ≡ carries (plains elements.now) (plain_fill fill) }
{
    if elements.len() > 0 {
        return None;
    }
    match fill {
        None => None,
        Some(f) => { if nests_within(&f, 128) { Some(f) } else { None } }
    }
}

impl Arr {
    /// The array of this shape and these elements; it carries the fill where it is empty.
    #[tactic(auto, using(crate::proofs::Within::makes))]
    pub fn new(
        alloc: Global,
        shape: &[u32],
        elements: Vec<Value>,
        fill: Option<Value>,
    ) -> Result<Arr, ValueError>
        requires counted { places shape.now ≡ length elements.items }
        requires parts { all_proper (values (plains elements.items)) ≡ true }
        requires fill { IsFill (plain_fill fill) }
        ensures { Makes result (array_of shape.now (values (plains elements.items)) (plain_fill fill)) }
    {
        let l = match checked(shape, &elements) {
            Ok(l) => l,
            Err(e) => return Err(e),
        };
        let fill = carried(&elements, fill);
        let Ok(shape) = Vec::from_slice(alloc, shape) else {
            return Err(ValueError::Memory);
        };
        let load = Load {
            weight: 1 + l.weight,
            height: 1 + l.height,
        };
        match Rc::new(
            alloc,
            Held {
                shape,
                elements,
                fill,
                load,
            },
        ) {
            Ok(held) => Ok(Arr { held }),
            Err(_) => Err(ValueError::Memory),
        }
    }
}

/// The loads of all together, or none where they weigh more than a value may.
#[tactic(auto, using(crate::proofs::Within::limits))]
pub fn loads(vs: &[Value]) -> Option<Load>
    requires { all_proper (values (plains vs.now)) ≡ true }
    ensures { Weighed result (plains vs.now) }
{
    let mut weight = 0;
    let mut height = 0;
    for v in vs {
        let l = load(v);
        weight += l.weight;
        if u64::from(weight) > LIMIT {
            return None;
        }
        height = higher(height, l.height);
    }
    Some(Load { weight, height })
}

/// The load of the parts of a function that is within the limits, or the limit that it passes.
fn parts_load(parts: &[Value]) -> Result<Load, ValueError>
    requires { all_proper (values (plains parts.now)) ≡ true }
    ensures { Loaded result (plains parts.now) }
{
    let Some(l) = loads(parts) else {
        return Err(ValueError::TooLarge);
    };
    if u64::from(l.weight) >= LIMIT {
        return Err(ValueError::TooLarge);
    }
    if l.height >= HIGH {
        return Err(ValueError::TooDeep);
    }
    Ok(l)
}

/// These parts, shared, with what they weigh.
fn held(alloc: Global, items: Vec<Value>, load: Load) -> Result<Parts, Memory>
    requires parts { all_proper (values (plains items.items)) ≡ true }
    requires loaded { LoadOfParts load (plains items.items) }
    ensures { IfOk result (λ p. p ≡ plains items.items) }
{
    match Rc::new(alloc, HeldParts { items, load }) {
        Ok(held) => Ok(Parts { held: Some(held) }),
        Err(_) => Err(Memory),
    }
}

/// The function that a maker makes of these parts.
#[tactic(auto, using(crate::proofs::Functions::function_laws))]
pub fn derived(alloc: Global, maker: Maker, parts: Vec<Value>) -> Result<Fun, ValueError>
    requires made { is_made_of (plain_maker maker) (values (plains parts.items)) ≡ true }
    requires parts { all_proper (values (plains parts.items)) ≡ true }
    ensures { MakesFun result (derived_of (plain_maker maker) (values (plains parts.items))) }
{
    let load = match parts_load(&parts) {
        Ok(load) => load,
        Err(e) => return Err(e),
    };
    match held(alloc, parts, load) {
        Ok(parts) => Ok(Fun::Derived { maker, parts }),
        Err(Memory) => Err(ValueError::Memory),
    }
}

/// The function of a block in an environment, with these operands.
#[tactic(auto, using(crate::proofs::Functions::function_laws))]
pub fn block_function(
    alloc: Global,
    block: u32,
    env: u32,
    parts: Vec<Value>,
) -> Result<Fun, ValueError>
    requires few { length parts.items ≤ 2 }
    requires parts { all_proper (values (plains parts.items)) ≡ true }
    ensures { MakesFun result (function_of block env (values (plains parts.items))) }
{
    if parts.is_empty() {
        let parts = Parts { held: None };
        return Ok(Fun::Block { block, env, parts });
    }
    let load = match parts_load(&parts) {
        Ok(load) => load,
        Err(e) => return Err(e),
    };
    match held(alloc, parts, load) {
        Ok(parts) => Ok(Fun::Block { block, env, parts }),
        Err(Memory) => Err(ValueError::Memory),
    }
}
