ghost use Rattle.std.specs.Prelude.{◌≡◌, codes, nat_eq};
ghost use Rattle.std.specs.Cmp.Lexicographic.{pointwise};
ghost use Rattle.bqn_forms.specs.Form.{given_function, kind_function, part_function, token_function};
ghost use Rattle.bqn_forms.specs.Form.{function_of as function_in};
ghost use Rattle.bqn_syntax.specs.grammar.Trees.{derived_of, part_of};

use crate::function::{Callee, Function};
use bqn_base::{Name, Role};
use bqn_syntax::{Derived, Kind, Part, Token};

fn is_show(name: &Name) -> bool
    ensures { result ≡ pointwise nat_eq name.now (codes "show") }
{
    name.chars() == ['s', 'h', 'o', 'w'].as_slice()
}

fn function_of_given(code: u8) -> Option<Function>
    ensures { result ≡ given_function code }
{
    match code {
        0 => Some(Function::Plus),
        1 => Some(Function::Minus),
        2 => Some(Function::Times),
        _ => None,
    }
}

fn function_of_kind(kind: &Kind) -> Option<Function>
    ensures { result ≡ kind_function kind.now }
{
    match kind {
        Kind::Given(code) => function_of_given(*code),
        Kind::System(name, Role::Function) if is_show(name) => Some(Function::Show),
        _ => None,
    }
}

fn function_of_token(token: &Token) -> Option<Callee>
    ensures { result ≡ token_function token.now }
{
    match function_of_kind(&token.kind) {
        Some(function) => Some(Callee {
            function,
            place: token.place,
        }),
        None => None,
    }
}

#[tactic(auto, using(bqn_syntax::specs::grammar::TreeEquations::tree_equations))]
fn function_of_part(part: &Part) -> Option<Callee>
    ensures { result ≡ part_function (part_of part.now) }
{
    match part {
        Part::Leaf(token) => function_of_token(token),
        _ => None,
    }
}

/// The function that is called, or none where it is not built yet.
#[tactic(auto, using(crate::proofs::Called::function_laws))]
pub(crate) fn function_of(derived: &Derived) -> Option<Callee>
    ensures { result ≡ function_in (derived_of derived.now) }
{
    match derived.uses.list() {
        [] => function_of_part(&derived.first),
        _ => None,
    }
}
