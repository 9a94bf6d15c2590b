ghost use Rattle.std.specs.Prelude.{◌≡◌, IfOk, OnOk};
ghost use Rattle.bqn_scope.specs.Bindings.{bindings_shown, bound_by, bound_to, hidden_by, hidden_shown, none_bound, unbound};
ghost use Rattle.bqn_scope.specs.Tokens.{names_of_tokens, tokens_shown};

use crate::defined::name_of;
use crate::spellings::Spellings;
use bqn_base::Memory;
use bqn_syntax::Token;
use indexmap::IndexMap;
use std::alloc::Global;

/// The innermost binding of each name: the level of a body, which is 0 for the top body, and the
/// slot there. A name that no body around has stays as a key without a binding.
#[derive(Drop)]
pub struct Bindings<'a> {
    innermost: IndexMap<&'a [char], Option<(usize, usize)>>,
}

/// A name that a body binds, and its binding outside of the body.
#[derive(Clone, Copy)]
pub struct Hidden<'a> {
    name: &'a [char],
    outside: Option<(usize, usize)>,
}

impl<'a> Bindings<'a> {
    /// No name is bound.
    #[tactic(auto, using(crate::proofs::Binding::binding_laws))]
    pub fn new(alloc: Global) -> Bindings<'a>
        ensures { bindings_shown result ≡ none_bound }
    {
        Bindings {
            innermost: IndexMap::new(alloc),
        }
    }

    /// The binding of a name.
    #[tactic(auto, using(crate::proofs::Binding::binding_laws))]
    pub fn get(&self, name: &[char]) -> Option<(usize, usize)>
        ensures { result ≡ bindings_shown self.now name.now }
    {
        match self.innermost.get(name) {
            Some(binding) => *binding,
            None => None,
        }
    }

    /// Binds a name, or takes its binding away, and gives its binding before.
    #[tactic(auto, using(crate::proofs::Binding::binding_laws))]
    fn set(
        &mut self,
        name: &'a [char],
        binding: Option<(usize, usize)>,
    ) -> Result<Option<(usize, usize)>, Memory>
        ensures before { IfOk result (λ before. before ≡ bindings_shown self.old name.now) }
        ensures after { OnOk result (bindings_shown self.new ≡ bound_to name.now binding (bindings_shown self.old)) }
    {
        match self.innermost.insert(name, binding)? {
            Some(before) => Ok(before),
            None => Ok(None),
        }
    }

    /// Binds the names of definitions to the slots of a body from the first one on, and gives what
    /// they hide.
    #[tactic(auto, using(crate::proofs::Binding::binding_laws))]
    pub fn bind(
        &mut self,
        alloc: Global,
        level: usize,
        first: usize,
        tokens: &[&'a Token],
    ) -> Result<Vec<Hidden<'a>>, Memory>
        ensures bound { OnOk result (bindings_shown self.new ≡ bound_by level first (names_of_tokens (tokens_shown tokens.now)) (bindings_shown self.old)) }
        ensures hidden { IfOk result (λ hidden. hidden_shown hidden.items
            ≡ hidden_by level first (names_of_tokens (tokens_shown tokens.now)) (bindings_shown self.old)) }
    {
        let mut hidden = Vec::new(alloc);
        let mut index = tokens.len();
        'tokens: while index > 0 {
            index -= 1;
            let Some(slot) = first.checked_add(index) else {
                return Err(Memory);
            };
            let name = name_of(tokens[index]);
            let outside = self.set(name, Some((level, slot)))?;
            hidden.push(Hidden { name, outside })?;
        }
        Ok(hidden)
    }

    /// Binds the names of a session to the first slots of the top body.
    #[tactic(auto, using(crate::proofs::Binding::binding_laws))]
    pub fn bind_session(&mut self, names: &'a Spellings) -> Result<(), Memory>
        ensures { OnOk result (bindings_shown self.new ≡ bound_by 0 0 names.now (bindings_shown self.old)) }
    {
        let mut index = names.len();
        'names: while index > 0 {
            index -= 1;
            self.set(names.at(index), Some((0, index)))?;
        }
        Ok(())
    }

    /// Gives hidden names their bindings back.
    #[tactic(auto, using(crate::proofs::Binding::binding_laws))]
    pub fn restore(&mut self, hidden: &[Hidden<'a>]) -> Result<(), Memory>
        ensures { OnOk result (bindings_shown self.new ≡ unbound (hidden_shown hidden.now) (bindings_shown self.old)) }
    {
        let mut index = hidden.len();
        'hidden: while index > 0 {
            index -= 1;
            let before = &hidden[index];
            self.set(before.name, before.outside)?;
        }
        Ok(())
    }
}
