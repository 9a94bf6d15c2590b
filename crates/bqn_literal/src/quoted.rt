ghost use Rattle.std.specs.Prelude.{◌≡◌, IfOk, IsTrue};
ghost use Rattle.bqn_base.specs.Literal.{is_doubled, unquoted};

use bqn_base::{Memory, Text};
use std::alloc::Global;

/// The text between double quotes, of which two adjacent ones stand for one.
#[tactic(auto, using(crate::proofs::Quotes::quote_laws))]
pub fn string(alloc: Global, inside: &[char]) -> Result<Text, Memory>
    requires { IsTrue (is_doubled inside.now) }
    ensures { IfOk result (λ text. text ≡ unquoted inside.now) }
{
    let mut chars = Vec::new(alloc);
    let mut paired = false;
    'scan: for c in inside {
        if paired {
            paired = false;
            continue;
        }
        match chars.push(*c) {
            Ok(()) => paired = *c == '"',
            Err(_) => return Err(Memory),
        }
    }
    Text::new(alloc, chars.as_slice())
}
