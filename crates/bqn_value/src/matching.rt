//! Match: whether two values have the same types, shapes and elements.

ghost use Rattle.std.specs.Prelude.{◌≡◌, nat_eq};
ghost use Rattle.bqn_rows.specs.Plain.{values, kind, kind_number, given_kind};
ghost use Rattle.bqn_rows.specs.Relations.{matching, all_matching, same_shape, where_alike};
ghost use Rattle.bqn_value.specs.Meaning.{plain, plain_fun, plain_mod1, plain_mod2, plains, array};

use crate::value::{Arr, Fun, Modifier, Value};
use bqn_base::Fault;

/// Whether two values match, whatever fills they carry; the first unequal pair decides.
///
/// # Errors
///
/// NoCompare where the first pair that is not equal is of two operations of one type, or of two namespaces.
#[cycle(matches)]
pub fn matches(w: &Value, x: &Value) -> Result<bool, Fault>
    ensures { result ≡ matching (plain w.now) (plain x.now) }
{
    match (w, x) {
        (Value::Number(w), Value::Number(x)) => Ok(*w == *x),
        (Value::Char(w), Value::Char(x)) => Ok(*w == *x),
        (Value::Array(w), Value::Array(x)) => arrays_match(w, x),
        _ => others_match(w, x),
    }
}

#[cycle(matches)]
fn arrays_match(w: &Arr, x: &Arr) -> Result<bool, Fault>
    ensures { result ≡ matching (array w.now) (array x.now) }
{
    if !have_same_axes(w.shape(), x.shape()) {
        return Ok(false);
    }
    all_match(w.elements(), x.elements())
}

/// Whether all match, one by one.
#[cycle(matches)]
fn all_match(ws: &[Value], xs: &[Value]) -> Result<bool, Fault>
    ensures { result ≡ all_matching (values (plains ws.now)) (values (plains xs.now)) }
{
    for (i, w) in ws.iter().enumerate() {
        if i >= xs.len() {
            return Ok(false);
        }
        match matches(w, &xs[i]) {
            Ok(true) => {}
            decided => return decided,
        }
    }
    Ok(ws.len() == xs.len())
}

/// Whether two values match that are not both numbers, both characters or both arrays.
fn others_match(w: &Value, x: &Value) -> Result<bool, Fault>
    ensures { result ≡ where_alike (nat_eq (kind_number (kind (plain w.now))) (kind_number (kind (plain x.now)))) (Err Fault.NoCompare) }
{
    if type_number(w) == type_number(x) {
        Err(Fault::NoCompare)
    } else {
        Ok(false)
    }
}

fn have_same_axes(s: &[u32], t: &[u32]) -> bool
    ensures { result ≡ same_shape s.now t.now }
{
    s == t
}

/// The number of the type of a value, as `•Type` gives it.
pub fn type_number(v: &Value) -> u8
    ensures { result ≡ kind_number (kind (plain v.now)) }
{
    match v {
        Value::Array(_) => 0,
        Value::Number(_) => 1,
        Value::Char(_) => 2,
        Value::Fun(Fun::Given(code)) => given_type_number(*code),
        Value::Fun(_) => 3,
        Value::Mod1(Modifier::Given(code)) => given_type_number(*code),
        Value::Mod1(_) => 4,
        Value::Mod2(Modifier::Given(code)) => given_type_number(*code),
        Value::Mod2(_) => 5,
        Value::Space(_) => 6,
    }
}

fn given_type_number(code: u8) -> u8
    ensures { result ≡ kind_number (given_kind code) }
{
    match code {
        44..=52 => 4,
        53..=63 => 5,
        _ => 3,
    }
}
