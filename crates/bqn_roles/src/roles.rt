ghost use Rattle.std.specs.Prelude.{◌≡◌};
ghost use Rattle.bqn_syntax.specs.text.Words.{begins_subject, ends_in_underscore, role_of};

use bqn_base::Role;

#[tactic(auto, using(crate::proofs::Endings::ending_laws))]
fn ends_in_an_underscore(word: &[char]) -> bool
    ensures { result ≡ ends_in_underscore word.now }
{
    match word.last().copied() {
        Some(last) => last == '_',
        None => false,
    }
}

fn may_begin_subject(c: char) -> bool
    ensures { result ≡ begins_subject c }
{
    c.is_ascii_lowercase() || ['𝕨', '𝕩', '𝕤', '𝕗', '𝕘', '𝕣'].contains(&c)
}

/// The role of a word or of a special name, by its spelling.
pub fn role(word: &[char]) -> Role
    ensures { result ≡ role_of word.now }
{
    match word {
        ['_', ..] if ends_in_an_underscore(word) => Role::Mod2,
        ['_', ..] => Role::Mod1,
        [first, ..] if !may_begin_subject(*first) => Role::Function,
        _ => Role::Subject,
    }
}

#[cfg(test)]
mod tests {
    use super::*;

    #[test]
    fn roles_of_words(rt: HostRuntime) {
        for (word, wanted) in [
            (['a', 'B'], Role::Subject),
            (['A', 'b'], Role::Function),
            (['a', '_'], Role::Subject),
            (['_', 'a'], Role::Mod1),
            (['_', '_'], Role::Mod2),
            (['_', '𝕣'], Role::Mod1),
            (['𝕣', '_'], Role::Subject),
            (['𝕏', '_'], Role::Function),
        ] {
            assert_eq!(rt; role(&word), wanted, "at {word:?}");
        }
    }
}
