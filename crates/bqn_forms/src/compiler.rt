ghost use Rattle.std.specs.Option.{option_map};
ghost use Rattle.bqn_forms.specs.Form.{form_of};
ghost use Rattle.bqn_syntax.specs.grammar.Trees.{tree_of};
ghost use Rattle.bqn_forms.specs.Compiling.{Compiles};
ghost use Rattle.bqn_forms.specs.Reading.{ReadsAs};
ghost use Rattle.bqn_forms.specs.Translation.{translation};

use crate::code::Instr;
use crate::emitter::code_of;
use crate::error::CompileError;
use bqn_syntax::{Token, Tree};
use std::alloc::Global;

/// The most tokens of a source of the form that is built so far.
const MOST_TOKENS: usize = 4096;

/// The code of a token list with this tree.
///
/// # Errors
///
/// `NotYet` exactly where they are not of the form that is built so far, `Memory` where memory is wanting.
#[tactic(auto, using(crate::proofs::Compiled::compile_laws))]
pub fn compile(alloc: Global, tokens: &[Token], tree: &Tree) -> Result<Vec<Instr>, CompileError>
    ensures translated { ReadsAs (λ code. code.items) (option_map translation (form_of tokens.now (tree_of tree.now))) result }
    ensures meaning { Compiles (form_of tokens.now (tree_of tree.now)) result }
{
    if tokens.len() > MOST_TOKENS {
        return Err(CompileError::NotYet);
    }
    code_of(alloc, tree.statements.list())
}

#[cfg(test)]
mod tests;
