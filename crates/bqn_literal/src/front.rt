//! What stands in front of a word, where underscores count for nothing.

ghost use Rattle.std.specs.Prelude.{◌≡◌, ◌≤◌, [], ◌∷◌, length, MatchOption};
ghost use Rattle.bqn_base.specs.Characters.{is_digit};
ghost use Rattle.bqn_base.specs.Literal.{are_digits, digits_in, without_underscores};
ghost use Rattle.bqn_literal.specs.Shown.{figures, front_at, has_figure};

/// Whether this is a digit.
pub(crate) fn is_a_digit(c: char) -> bool
    ensures { result ≡ is_digit c }
{
    c.is_ascii_digit()
}

/// The first character that is no underscore, and the word behind it.
#[tactic(auto, using(crate::proofs::Fronts::first_laws))]
pub(crate) fn split_first(word: &[char]) -> Option<(char, &[char])>
    ensures { MatchOption result (without_underscores word.now ≡ []) (λ parts. without_underscores word.now ≡ parts.0 ∷ without_underscores parts.1.now) }
{
    'scan: for (i, c) in word.iter().enumerate() {
        if *c != '_' {
            return Some((*c, word.split_at(i + 1).1));
        }
    }
    None
}

/// How many characters in front are digits or underscores.
#[tactic(auto, using(crate::proofs::Fronts::front_laws))]
fn front_length(word: &[char]) -> usize
    ensures within { result ≤ length word.now }
    ensures parts { digits_in (without_underscores word.now) ≡ front_at result word.now }
{
    'scan: for (i, c) in word.iter().enumerate() {
        if *c != '_' && !is_a_digit(*c) {
            return i;
        }
    }
    word.len()
}

/// The digits in front, with the underscores among them, and what follows.
pub(crate) fn split_digits(word: &[char]) -> (&[char], &[char])
    ensures { digits_in (without_underscores word.now) ≡ record { digits = figures result.0.now; rest = without_underscores result.1.now } }
{
    word.split_at(front_length(word))
}

/// Whether there is a digit.
#[tactic(auto, using(crate::proofs::Fronts::figure_laws))]
pub(crate) fn has_digit(digits: &[char]) -> bool
    ensures { result ≡ has_figure digits.now }
{
    'scan: for c in digits {
        if is_a_digit(*c) {
            return true;
        }
    }
    false
}

/// Whether the word is digits to its end, at least one.
#[tactic(auto, using(crate::proofs::Fronts::all_laws))]
pub(crate) fn is_all_digits(word: &[char]) -> bool
    ensures { result ≡ are_digits (without_underscores word.now) }
{
    let mut some = false;
    'scan: for c in word {
        if *c == '_' {
            continue;
        }
        if !is_a_digit(*c) {
            return false;
        }
        some = true;
    }
    some
}
