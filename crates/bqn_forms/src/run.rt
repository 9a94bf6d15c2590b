ghost use Rattle.std.specs.Prelude.{◌≡◌, [], ◌∷◌, ◌++◌, IfErr, IsSome, OnOk, reverse, slice_get};
ghost use Rattle.bqn_forms.specs.Execution.{executed};
ghost use Rattle.bqn_forms.specs.Running.{act, loaded, top_act, vars_behind, Acts, EndsAs, Loads};

use crate::call::call;
use crate::code::Instr;
use crate::end::End;
use crate::function::Callee;
use crate::raised::Raised;
use bqn_base::{Fault, Place};
use bqn_io::Sink;
use std::alloc::Global;

/// Calls a function on the number at the top.
#[tactic(auto, using(crate::proofs::Steps::step_laws))]
fn call_top<K: Sink>(
    alloc: Global,
    callee: Callee,
    left: Option<i64>,
    stack: &mut Vec<i64>,
    out: &mut K,
) -> Result<(), End>
    requires { IsSome (top_act callee left (reverse stack.old.items)) }
    ensures { Acts K.written K.room K.faults (top_act callee left (reverse stack.old.items)) (reverse stack.new.items) out.old out.new result }
{
    let Some(x) = stack.pop() else { unreachable!() };
    match call(alloc, callee, left, x, out) {
        Err(end) => Err(end),
        Ok(answer) => match stack.push(answer) {
            Ok(()) => Ok(()),
            Err(_) => Err(End::Memory),
        },
    }
}

fn push(stack: &mut Vec<i64>, x: i64) -> Result<(), End>
    ensures ok { OnOk result (stack.new.items ≡ stack.old.items ++ x ∷ []) }
    ensures err { IfErr result (λ end. end ≡ End.Memory) }
{
    match stack.push(x) {
        Ok(()) => Ok(()),
        Err(_) => Err(End::Memory),
    }
}

fn value_at(vars: &[i64], number: usize) -> Option<i64>
    ensures { result ≡ slice_get vars.now number }
{
    if number < vars.len() {
        Some(vars[number])
    } else {
        None
    }
}

/// Pushes the value of a name.
#[tactic(auto, using(crate::proofs::Steps::step_laws))]
fn load(stack: &mut Vec<i64>, vars: &[i64], number: usize, place: Place) -> Result<(), End>
    ensures { Loads (loaded place (reverse stack.old.items) (slice_get vars.now number)) (reverse stack.new.items) result }
{
    match value_at(vars, number) {
        Some(x) => push(stack, x),
        None => Err(End::Faulted(Raised {
            fault: Fault::Undefined,
            place,
        })),
    }
}

/// Carries out one instruction on the stack and on the values of the names.
#[tactic(auto, using(crate::proofs::Steps::step_laws))]
fn step<K: Sink>(
    alloc: Global,
    instr: Instr,
    stack: &mut Vec<i64>,
    vars: &mut Vec<i64>,
    out: &mut K,
) -> Result<(), End>
    requires { IsSome (act instr (reverse stack.old.items) vars.old.items) }
    ensures acts { Acts K.written K.room K.faults (act instr (reverse stack.old.items) vars.old.items) (reverse stack.new.items) out.old out.new result }
    ensures vars { OnOk result (vars.new.items ≡ vars_behind instr (reverse stack.old.items) vars.old.items) }
{
    match instr {
        Instr::Const(x) => push(stack, x),
        Instr::Load(number, place) => load(stack, vars, number, place),
        Instr::Define => {
            let Some(x) = stack.last().copied() else {
                unreachable!()
            };
            push(vars, x)
        }
        Instr::Call1(callee) => call_top(alloc, callee, None, stack, out),
        Instr::Call2(callee) => {
            let Some(left) = stack.pop() else {
                unreachable!()
            };
            call_top(alloc, callee, Some(left), stack, out)
        }
        Instr::Pop => {
            let _ = stack.pop();
            Ok(())
        }
    }
}

/// Runs code with so many steps, and adds what it writes to `out`.
pub fn run_code<K: Sink>(alloc: Global, code: &[Instr], steps: u64, out: &mut K) -> End
    requires { IsSome (executed code.now steps) }
    ensures { EndsAs K.written K.room K.faults (executed code.now steps) out.old out.new result }
{
    if steps == 0 {
        return End::Spent;
    }
    let mut stack = Vec::new(alloc);
    let mut vars = Vec::new(alloc);
    'instructions: for instr in code {
        if let Err(end) = step(alloc, *instr, &mut stack, &mut vars, out) {
            return end;
        }
    }
    End::Done
}
