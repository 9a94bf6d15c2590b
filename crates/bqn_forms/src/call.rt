ghost use Rattle.std.specs.Prelude.{◌≡◌};
ghost use Rattle.bqn_forms.specs.Evaluation.{answer_at, answer_of, output_of};
ghost use Rattle.bqn_forms.specs.Running.{Calls};

use crate::end::End;
use crate::function::{Callee, Function};
use crate::line::number_line;
use crate::raised::Raised;
use bqn_base::{Fault, num};
use bqn_io::Sink;
use std::alloc::Global;

fn answer(function: Function, left: Option<i64>, x: i64) -> Result<i64, Fault>
    ensures { result ≡ answer_of function left x }
{
    match (function, left) {
        (Function::Plus, None) | (Function::Show, None) => Ok(x),
        (Function::Plus, Some(w)) => num::add(w, x),
        (Function::Minus, None) => num::negate(x),
        (Function::Minus, Some(w)) => num::sub(w, x),
        (Function::Times, None) => Ok(num::sign(x)),
        (Function::Times, Some(w)) => num::mul(w, x),
        (Function::Show, Some(_)) => Err(Fault::Domain),
    }
}

/// Calls a function on numbers. Only `•Show` without a left argument writes.
pub(crate) fn call<K: Sink>(
    alloc: Global,
    callee: Callee,
    left: Option<i64>,
    x: i64,
    out: &mut K,
) -> Result<i64, End>
    ensures { Calls K.written K.room K.faults (answer_at callee left x) (output_of callee.function left x) out.old out.new result }
{
    if let (Function::Show, None) = (callee.function, left) {
        let Ok(line) = number_line(alloc, x) else {
            return Err(End::Memory);
        };
        if out.put(&line).is_err() {
            return Err(End::WriteFault);
        }
        return Ok(x);
    }
    match answer(callee.function, left, x) {
        Ok(y) => Ok(y),
        Err(fault) => Err(End::Faulted(Raised {
            fault,
            place: callee.place,
        })),
    }
}
