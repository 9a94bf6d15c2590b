//! How deep a value is, and what it weighs.

ghost use Rattle.std.specs.Prelude.{◌≡◌, max, true};
ghost use Rattle.bqn_rows.specs.Plain.{values};
ghost use Rattle.bqn_rows.specs.Limits.{proper, all_proper};
ghost use Rattle.bqn_rows.specs.Relations.{depth as depth_of, depths as depths_of, weight as weight_of};
ghost use Rattle.bqn_value.specs.Meaning.{plain, plains, array};

use crate::making::load;
use crate::value::{Arr, Value};

/// The depth of arrays alone: an atom has 0, an array 1 more than its deepest element, or 1.
#[cycle(depth)]
pub fn depth(v: &Value) -> u32
    requires { proper (plain v.now) ≡ true }
    ensures { result ≡ depth_of (plain v.now) }
{
    match v {
        Value::Array(a) => array_depth(a),
        _ => 0,
    }
}

#[cycle(depth)]
#[tactic(auto, using(crate::proofs::Depths::depth_laws))]
fn array_depth(a: &Arr) -> u32
    ensures { result ≡ depth_of (array a.now) }
{
    let _count = a.count();
    1 + deepest(a.elements())
}

/// The depth of the deepest.
#[cycle(depth)]
#[tactic(auto, using(crate::proofs::Depths::depth_laws))]
fn deepest(vs: &[Value]) -> u32
    requires { all_proper (values (plains vs.now)) ≡ true }
    ensures { result ≡ depths_of (values (plains vs.now)) }
{
    let mut deepest = 0;
    for v in vs {
        deepest = greater(deepest, depth(v));
    }
    deepest
}

#[inline(always)]
fn greater(a: u32, b: u32) -> u32
    ensures { result ≡ max a b }
{
    if a < b { b } else { a }
}

/// How many atoms and arrays it is made of: an atom weighs 1, whatever holds others 1 more than they.
pub fn weight(v: &Value) -> u64
    requires { proper (plain v.now) ≡ true }
    ensures { result ≡ weight_of (plain v.now) }
{
    u64::from(load(v).weight)
}
