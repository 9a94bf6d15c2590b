ghost use Rattle.std.specs.Prelude.{◌≡◌, [], ◌∷◌, IfOk, OnOk, drop};
ghost use Rattle.std.specs.Option.{option_map};
ghost use Rattle.bqn_syntax.specs.scope.Scope.{block_scope, sees, top_scope};
ghost use Rattle.bqn_scope.specs.Around.{IsBound, bodies_around, has_last};
ghost use Rattle.bqn_scope.specs.Bindings.{bindings_shown, hidden_shown, innermost, unbound};
ghost use Rattle.bqn_scope.specs.Scopes.{seen_of};
ghost use Rattle.bqn_scope.specs.Shown.{events_shown, mentions_shown, own_of};

use crate::bindings::{Bindings, Hidden};
use crate::mention::{Event, Mention, Own};
use crate::scope::{Scope, scope_of};
use crate::spellings::Spellings;
use bqn_base::Memory;
use std::alloc::Global;

/// The bodies around, from the top body inward, with the bindings of names in the last one.
#[derive(Drop)]
pub struct Around<'a> {
    pub outer: &'a Spellings,
    pub scopes: Vec<Scope<'a>>,
    pub bindings: Bindings<'a>,
}

impl<'a> Around<'a> {
    /// The top body of a program after these names.
    #[tactic(auto, using(crate::proofs::Bodies::around_laws))]
    pub fn of_program(
        alloc: Global,
        outer: &'a Spellings,
        mentions: &[Mention<'a>],
        order: &[Event<'a>],
    ) -> Result<Around<'a>, Memory>
        ensures bound { IfOk result IsBound }
        ensures bodies { IfOk result (λ around. bodies_around around ≡ top_scope outer.now (mentions_shown mentions.now) (events_shown order.now) ∷ []) }
    {
        let scope = scope_of(alloc, outer, false, mentions, order)?;
        let tokens = scope.defined.places.tokens.as_slice();
        let mut bindings = Bindings::new(alloc);
        bindings.bind(alloc, 0, outer.len(), tokens)?;
        bindings.bind_session(outer)?;
        let mut scopes = Vec::new(alloc);
        scopes.push(scope)?;
        Ok(Around {
            outer,
            scopes,
            bindings,
        })
    }

    /// How many bodies outward a name is found, and its slot there.
    #[tactic(auto, using(crate::proofs::Bodies::around_laws))]
    pub fn sees(&self, name: &[char]) -> Option<(usize, usize)>
        requires { IsBound self.now }
        ensures { option_map seen_of result ≡ sees (bodies_around self.now) name.now }
    {
        match self.bindings.get(name) {
            Some((level, slot)) => Some((self.scopes.len() - 1 - level, slot)),
            None => None,
        }
    }

    /// Whether the last body has a name.
    #[tactic(auto, using(crate::proofs::Bodies::around_laws))]
    pub fn has(&self, name: &[char]) -> bool
        requires { IsBound self.now }
        ensures { result ≡ has_last (bodies_around self.now) name.now }
    {
        match self.sees(name) {
            Some((up, _)) => up == 0,
            None => false,
        }
    }

    /// Goes into a body of a block, and gives what its names hide.
    #[tactic(auto, using(crate::specs::Equations::of_mentions, crate::proofs::Bodies::around_laws))]
    pub fn enter(&mut self, alloc: Global, own: &Own<'a>) -> Result<Vec<Hidden<'a>>, Memory>
        requires { IsBound self.old }
        ensures bound { OnOk result (IsBound self.new) }
        ensures bodies { OnOk result (bodies_around self.new ≡ block_scope (own_of own.now).mentions (own_of own.now).order ∷ bodies_around self.old) }
        ensures hidden { IfOk result (λ hidden. unbound (hidden_shown hidden.items) (innermost (bodies_around self.new)) ≡ innermost (bodies_around self.old)) }
    {
        let (mentions, order) = (own.mentions.list(), own.order.list());
        let scope = scope_of(alloc, self.outer, true, mentions, order)?;
        let tokens = scope.defined.places.tokens.as_slice();
        let hidden = self.bindings.bind(alloc, self.scopes.len(), 0, tokens)?;
        self.scopes.push(scope)?;
        Ok(hidden)
    }

    /// Goes out of the last body, whose names hide these.
    #[tactic(auto, using(crate::proofs::Bodies::around_laws))]
    pub fn leave(&mut self, hidden: &[Hidden<'a>]) -> Result<(), Memory>
        ensures bodies { OnOk result (bodies_around self.new ≡ drop 1 (bodies_around self.old)) }
        ensures bindings { OnOk result (bindings_shown self.new.bindings ≡ unbound (hidden_shown hidden.now) (bindings_shown self.old.bindings)) }
    {
        self.bindings.restore(hidden)?;
        self.scopes.pop();
        Ok(())
    }
}
