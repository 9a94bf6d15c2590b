ghost use Rattle.std.specs.Prelude.{◌≡◌, ◌<◌, [], ◌∷◌, ◌++◌, None, false, get_or, length, nat_eq, IsTrue, OnOk, OnErr, IfSome};
ghost use Rattle.std.specs.List.{IsDistinct, list_all};
ghost use Rattle.std.specs.Cmp.Lexicographic.{pointwise};
ghost use Rattle.bqn_base.specs.Names.{is_name_character};
ghost use Rattle.bqn_syntax.specs.scope.Scope.{has};
ghost use Rattle.bqn_scope.specs.Names.{place_of};

use bqn_base::{Memory, Name};
use indexmap::IndexSet;
use std::alloc::Global;
use std::marker::Model;

/// A list of names without repeats, in the order in which they were added.
#[derive(Drop)]
pub struct Spellings {
    alloc: Global,
    spellings: IndexSet<Vec<char>>,
}

impl Model for Spellings {
    ghost use Rattle.std.specs.Prelude.{List, ℕ};
    ghost use Rattle.std.specs.Coded.{coded_list, coded_ℕ};
    ghost use Rattle.bqn_scope.specs.Names.{AreDistinct, AreNames, spelled};

    ghost Value = { List (List ℕ) };

    ghost coded = { coded_list (coded_list coded_ℕ) };

    ghost view = { λ names. spelled names.spellings.keys };

    ghost invariant = { λ names. AreDistinct names.spellings.keys × AreNames names.spellings.keys };
}

impl Spellings {
    /// No names.
    pub fn new(alloc: Global) -> Spellings
        ensures { result ≡ [] }
    {
        Spellings {
            alloc,
            spellings: IndexSet::new(alloc),
        }
    }

    /// How many there are.
    #[tactic(auto, using(crate::proofs::Spelling::name_laws))]
    pub fn len(&self) -> usize
        ensures { result ≡ length self.now }
    {
        self.spellings.len()
    }

    /// Whether the list holds a name.
    #[tactic(auto, using(crate::proofs::Spelling::name_laws))]
    pub fn contains(&self, name: &[char]) -> bool
        ensures { result ≡ has self.now name.now }
    {
        self.spellings.contains(name)
    }

    /// The place of a name, if the list holds it.
    #[tactic(auto, using(crate::proofs::Spelling::name_laws))]
    pub fn position(&self, name: &[char]) -> Option<usize>
        ensures value { result ≡ place_of self.now name.now }
        ensures within { IfSome result (λ place. place < length self.now) }
        ensures distinct { IsDistinct (pointwise nat_eq) self.now }
    {
        self.spellings.get_index_of(name)
    }

    /// The name at a place.
    #[tactic(auto, using(crate::proofs::Spelling::name_laws))]
    pub fn at(&self, place: usize) -> &[char]
        requires { place < length self.now }
        ensures { result.now ≡ get_or self.now place result.now }
    {
        self.spellings.as_slice()[place].as_slice()
    }

    /// Puts a name to the end that the list does not hold.
    #[tactic(auto, using(crate::proofs::Spelling::name_laws))]
    pub fn push(&mut self, name: &[char]) -> Result<(), Memory>
        requires absent { has self.old name.now ≡ false }
        requires alphabet { IsTrue (list_all is_name_character name.now) }
        ensures ok { OnOk result (self.new ≡ self.old ++ name.now ∷ []) }
        ensures err { OnErr result (self.new ≡ self.old) }
    {
        let Ok(spelling) = Vec::from_slice(self.alloc, name) else {
            return Err(Memory);
        };
        let Ok(_) = self.spellings.insert_full(spelling) else {
            return Err(Memory);
        };
        Ok(())
    }

    /// Puts all names after others.
    #[tactic(auto, using(crate::proofs::Spelling::name_laws))]
    pub fn append_to(&self, names: &mut Vec<Name>) -> Result<(), Memory>
        ensures { OnOk result (names.new.items ≡ names.old.items ++ self.now) }
    {
        'spellings: for spelling in self.spellings.as_slice() {
            let name = Name::new(self.alloc, spelling.as_slice())?;
            let Ok(()) = names.push(name) else {
                return Err(Memory);
            };
        }
        Ok(())
    }
}
