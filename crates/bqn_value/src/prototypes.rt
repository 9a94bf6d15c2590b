ghost use Rattle.std.specs.Prelude.{◌≡◌, IfOk, true};
ghost use Rattle.bqn_rows.specs.Plain.{values};
ghost use Rattle.bqn_rows.specs.Relations.{prototype as prototype_of, prototypes as prototypes_of};
ghost use Rattle.bqn_rows.specs.Limits.{proper, all_proper};
ghost use Rattle.bqn_value.specs.Meaning.{plain, plains, plain_fill, array, all_plains};

use crate::value::{Arr, Value, ValueError};
use bqn_base::Memory;
use std::alloc::Global;

/// 0 for a number, the space for a character, the array of the elements' prototypes.
#[cycle(prototype)]
pub fn prototype(alloc: Global, v: &Value) -> Result<Option<Value>, Memory>
    requires { proper (plain v.now) ≡ true }
    ensures { IfOk result (λ o. plain_fill o ≡ prototype_of (plain v.now)) }
{
    match v {
        Value::Number(_) => Ok(Some(Value::Number(0))),
        Value::Char(_) => Ok(Some(Value::Char(' '))),
        Value::Array(a) => prototype_of_array(alloc, a),
        _ => Ok(None),
    }
}

#[cycle(prototype)]
fn prototype_of_array(alloc: Global, a: &Arr) -> Result<Option<Value>, Memory>
    ensures { IfOk result (λ o. plain_fill o ≡ prototype_of (array a.now)) }
{
    if a.count() == 0 {
        return Ok(Some(Value::Array(a.share()?)));
    }
    let all = match prototypes(alloc, a.elements()) {
        Ok(all) => all,
        Err(e) => return Err(e),
    };
    let Some(items) = all else {
        return Ok(None);
    };
    match Arr::new(alloc, a.shape(), items, None) {
        Ok(p) => Ok(Some(Value::Array(p))),
        Err(_) => Err(Memory),
    }
}

/// The prototypes of all, where all have one.
#[cycle(prototype)]
fn prototypes(alloc: Global, vs: &[Value]) -> Result<Option<Vec<Value>>, Memory>
    requires { all_proper (values (plains vs.now)) ≡ true }
    ensures { IfOk result (λ all. all_plains all ≡ prototypes_of (values (plains vs.now))) }
{
    let Ok(mut all) = Vec::with_capacity(alloc, vs.len()) else {
        return Err(Memory);
    };
    for v in vs {
        let p = match prototype(alloc, v) {
            Ok(p) => p,
            Err(e) => return Err(e),
        };
        let p = match p {
            Some(p) => p,
            None => return Ok(None),
        };
        let Ok(()) = all.push(p) else {
            return Err(Memory);
        };
    }
    Ok(Some(all))
}
