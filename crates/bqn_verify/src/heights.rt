//! How high the stack is.

ghost use Rattle.std.specs.Prelude.{◌≡◌};
ghost use Rattle.bqn_code.specs.Heights.{gives as given_by, is_balanced as balanced, is_last as ends, takes as taken_by};

use bqn_code::Instr;

/// How many operands an instruction finds on the stack.
fn takes(i: Instr) -> u64
    ensures { result ≡ taken_by i }
{
    match i {
        Instr::Define { .. } => 1,
        Instr::Change { .. } => 1,
        Instr::Pop => 1,
        Instr::List(n) => u64::from(n),
        Instr::Call1 => 2,
        Instr::Call2 => 3,
        Instr::Derive1 => 2,
        Instr::Derive2 => 3,
        Instr::Train2 => 2,
        Instr::Train3 => 3,
        Instr::Field(_) => 1,
        Instr::Bind(_) => 1,
        Instr::Match(_) => 1,
        Instr::Check => 1,
        Instr::Return => 1,
        _ => 0,
    }
}

/// How many values it leaves there.
fn gives(i: Instr) -> u64
    ensures { result ≡ given_by i }
{
    match i {
        Instr::Pop | Instr::Match(_) | Instr::Check | Instr::Return | Instr::Space => 0,
        _ => 1,
    }
}

fn is_last(i: Instr) -> bool
    ensures { result ≡ ends i }
{
    match i {
        Instr::Return | Instr::Space => true,
        _ => false,
    }
}

/// Whether each instruction finds its operands, and the code ends where the stack is spent.
#[tactic(auto, using(crate::proofs::Balance::balances))]
pub fn is_balanced(code: &[Instr]) -> bool
    ensures { result ≡ balanced 0 code.now }
{
    let mut height: u64 = 0;
    let mut at: usize = 0;
    while at < code.len() {
        let i = code[at];
        if is_last(i) {
            return height == takes(i) && at + 1 == code.len();
        }
        if takes(i) > height {
            return false;
        }
        height = height - takes(i) + gives(i);
        at += 1;
    }
    false
}
