ghost use Rattle.std.specs.Prelude.{◌≡◌, IfOk, IsTrue, [], ◌∷◌};
ghost use Rattle.std.specs.List.{list_all};
ghost use Rattle.bqn_base.specs.Names.{is_name_character};

use bqn_base::{Memory, Name};
use std::alloc::Global;

/// So many names are kept.
const ROOM: usize = 64;

/// Names that were spelled lately: one that comes again shares its characters.
#[derive(Drop)]
pub(crate) struct Recent {
    alloc: Global,
    names: Vec<Option<Name>>,
    /// Room for the letters of a word that is not spelled as its name.
    pub letters: Vec<char>,
}

/// The place in which a name with these characters is kept.
fn place_of(word: &[char]) -> usize {
    let mut mixed: u32 = 0;
    for c in word {
        mixed = mixed.rotate_left(5) ^ (*c as u32);
    }
    mixed as usize % ROOM
}

impl Recent {
    /// No names.
    pub fn new(alloc: Global) -> Result<Recent, Memory> {
        let Ok(mut names) = Vec::with_capacity(alloc, ROOM) else {
            return Err(Memory);
        };
        for _ in 0..ROOM {
            let Ok(()) = names.push(None) else {
                return Err(Memory);
            };
        }
        Ok(Recent {
            alloc,
            names,
            letters: Vec::new(alloc),
        })
    }

    /// The name of these characters.
    #[inline(always)]
    pub fn name(&mut self, word: &[char]) -> Result<Name, Memory>
        requires { IsTrue (list_all is_name_character word.now) }
        ensures { IfOk result (λ name. name ≡ word.now) }
    {
        let place = place_of(word);
        if let Some(Some(name)) = self.names.get(place) {
            if name.chars() == word {
                return name.share();
            }
        }
        self.keep(place, word)
    }

    /// The name of one character, kept where `place_of` would place it.
    #[inline(always)]
    pub fn letter(&mut self, c: char) -> Result<Name, Memory>
        requires { IsTrue (is_name_character c) }
        ensures { IfOk result (λ name. name ≡ c ∷ []) }
    {
        let place = c as usize % ROOM;
        if let Some(Some(name)) = self.names.get(place) {
            if let [kept] = name.chars() {
                if *kept == c {
                    return name.share();
                }
            }
        }
        self.keep(place, [c].as_slice())
    }

    /// The name of these characters, which is kept at a place.
    #[inline(never)]
    fn keep(&mut self, place: usize, word: &[char]) -> Result<Name, Memory>
        requires { IsTrue (list_all is_name_character word.now) }
        ensures { IfOk result (λ name. name ≡ word.now) }
    {
        let name = Name::new(self.alloc, word)?;
        if let Some(kept) = self.names.get_mut(place) {
            *kept = Some(name.share()?);
        }
        Ok(name)
    }
}
