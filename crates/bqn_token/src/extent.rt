ghost use Rattle.std.specs.Prelude.{◌≡◌, ◌||◌};
ghost use Rattle.bqn_syntax.specs.text.Table.{first_state, is_digit, is_final, is_letter, is_name_start, is_word, next, within_word};
ghost use Rattle.bqn_syntax.specs.text.Cut.{longest};
ghost use Rattle.bqn_token.specs.Runs.{ends_word, line_extent, word_extent};
ghost use Rattle.bqn_syntax.specs.declared.progress.Progress.TheVariants.{Start};

use crate::single::is_single;
use bqn_syntax::Progress;

/// Whether this is a digit.
pub(crate) fn is_a_digit(c: char) -> bool
    ensures { result ≡ is_digit c }
{
    c.is_ascii_digit()
}

pub(crate) fn is_a_letter(c: char) -> bool
    ensures { result ≡ is_letter c }
{
    c.is_ascii_lowercase() || c.is_ascii_uppercase()
}

pub(crate) fn is_a_letter_or_digit(c: char) -> bool
    ensures { result ≡ (is_letter c || is_digit c) }
{
    is_a_letter(c) || is_a_digit(c)
}

pub(crate) fn may_start_name(c: char) -> bool
    ensures { result ≡ is_name_start c }
{
    is_a_letter(c) || c == '_' || c == '𝕣'
}

pub(crate) fn may_stand_in_word(c: char) -> bool
    ensures { result ≡ is_word c }
{
    may_start_name(c) || is_a_digit(c) || c == '¯' || c == '∞' || c == 'π'
}

/// Whether neither a character of a word nor a dot stands in front.
#[inline(always)]
#[tactic(auto, using(crate::proofs::Runs::end_laws))]
pub(crate) fn word_ends(text: &[char]) -> bool
    ensures { result ≡ ends_word text.now }
{
    match text.first() {
        Some(c) => !may_stand_in_word(*c) && *c != '.',
        None => true,
    }
}

fn first_progress(c: char) -> Option<Progress>
    ensures { result ≡ first_state c }
{
    if is_a_digit(c) {
        return Some(Progress::Digit);
    }
    if may_stand_in_word(c) {
        return Some(Progress::Word);
    }
    match c {
        '#' => Some(Progress::Comment),
        '•' => Some(Progress::Bullet),
        '\'' => Some(Progress::Quote),
        '"' => Some(Progress::Inside),
        _ => is_single(c).then_some(Progress::Done),
    }
}

fn progress_in_word(c: char) -> Option<Progress>
    ensures { result ≡ within_word c }
{
    if is_a_digit(c) {
        Some(Progress::Digit)
    } else {
        may_stand_in_word(c).then_some(Progress::Word)
    }
}

fn next_progress(progress: Progress, c: char) -> Option<Progress>
    ensures { result ≡ next progress c }
{
    match progress {
        Progress::Start => first_progress(c),
        Progress::Done => None,
        Progress::Comment => (c != '\n').then_some(Progress::Comment),
        Progress::Word => progress_in_word(c),
        Progress::Digit if c == '.' => Some(Progress::Dot),
        Progress::Digit => progress_in_word(c),
        Progress::Dot => is_a_digit(c).then_some(Progress::Digit),
        Progress::Bullet => may_start_name(c).then_some(Progress::Word),
        Progress::Quote => Some(Progress::Quoted),
        Progress::Quoted => (c == '\'').then_some(Progress::Done),
        Progress::Inside if c == '"' => Some(Progress::Closed),
        Progress::Inside => Some(Progress::Inside),
        Progress::Closed => (c == '"').then_some(Progress::Inside),
    }
}

fn may_end(progress: Progress) -> bool
    ensures { result ≡ is_final progress }
{
    match progress {
        Progress::Done | Progress::Comment | Progress::Word | Progress::Digit | Progress::Closed =>
            true,
        Progress::Start
        | Progress::Dot
        | Progress::Bullet
        | Progress::Quote
        | Progress::Quoted
        | Progress::Inside => false,
    }
}

/// How many characters the longest piece in front has, character by character.
#[tactic(auto, using(crate::proofs::Scan::scan_laws))]
fn piece_by_characters(text: &[char]) -> Option<usize>
    ensures { result ≡ longest Start text.now }
{
    let mut progress = Progress::Start;
    let mut best = None;
    'scan: for (i, c) in text.iter().enumerate() {
        let Some(after) = next_progress(progress, *c) else {
            return best;
        };
        progress = after;
        if may_end(progress) {
            best = Some(i + 1);
        }
    }
    best
}

/// How many characters stand before the first newline.
#[tactic(auto, using(crate::proofs::Runs::line_laws))]
fn line_length(text: &[char]) -> usize
    ensures { result ≡ line_extent text.now }
{
    'line: for (i, c) in text.iter().enumerate() {
        if *c == '\n' {
            return i;
        }
    }
    text.len()
}

/// How many characters in front may stand in a word, or none where a dot stands behind them.
#[tactic(auto, using(crate::proofs::Runs::word_laws))]
fn word_length(text: &[char]) -> Option<usize>
    ensures { result ≡ word_extent text.now }
{
    'word: for (i, c) in text.iter().enumerate() {
        if may_stand_in_word(*c) {
            continue;
        }
        if *c == '.' {
            return None;
        }
        return Some(i);
    }
    Some(text.len())
}

/// How many characters the longest piece in front has, or none where no piece stands there.
#[tactic(auto, using(crate::proofs::Runs::piece_laws))]
pub(crate) fn longest_piece(text: &[char]) -> Option<usize>
    ensures { result ≡ longest Start text.now }
{
    if let Some('#') = text.first().copied() {
        return Some(line_length(text));
    }
    match word_length(text) {
        Some(count) if count > 0 => Some(count),
        _ => piece_by_characters(text),
    }
}
