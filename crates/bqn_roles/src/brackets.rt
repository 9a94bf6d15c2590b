ghost use Rattle.std.specs.Prelude.{◌≡◌, ◌≤◌, ◌^◌, length};
ghost use Rattle.bqn_syntax.specs.grammar.Brackets.{behind_token, closed, closing_of, is_closing, is_opening, marked, opened, partners_of};
ghost use Rattle.bqn_roles.specs.Nesting.{Gives, Moves, Sound, nesting_of};

use crate::error::NestError;
use bqn_base::{Place, Refusal};
use bqn_syntax::{Kind, Open, Token};
use std::alloc::Global;

/// So many brackets may be open at once.
const DEEPEST: usize = 128;

/// The partners of the tokens of a source. For each bracket `partner` holds the index of the
/// bracket that closes or opens it, and for each other token the token's own index.
#[derive(Debug, Drop)]
pub struct Groups {
    pub partner: Vec<u32>,
}

/// The brackets that are open, the innermost last, and the partners of the tokens so far.
#[derive(Drop)]
struct Scan {
    around: Vec<Open>,
    partner: Vec<u32>,
}

fn is_open(c: char) -> bool
    ensures { result ≡ is_opening c }
{
    c == '(' || c == '{' || c == '⟨' || c == '['
}

fn is_close(c: char) -> bool
    ensures { result ≡ is_closing c }
{
    c == ')' || c == '}' || c == '⟩' || c == ']'
}

/// The bracket that closes an opening one.
fn close_of(c: char) -> char
    ensures { result ≡ closing_of c }
{
    match c {
        '(' => ')',
        '{' => '}',
        '⟨' => '⟩',
        '[' => ']',
        _ => c,
    }
}

/// Opens a bracket, which stands as its own partner until it is closed.
#[tactic(auto, using(crate::proofs::Scanning::scan_laws))]
fn open_bracket(scan: &mut Scan, bracket: Open) -> Result<(), NestError>
    ensures { Moves (opened bracket (nesting_of scan.old)) (nesting_of scan.new) result }
{
    if scan.around.len() == DEEPEST {
        return Err(NestError::Refused(Refusal::TooNested(bracket.place)));
    }
    scan.around.push(bracket)?;
    scan.partner.push(bracket.index)?;
    Ok(())
}

/// Closes the innermost open bracket.
#[tactic(auto, using(crate::proofs::Scanning::scan_laws))]
fn close_bracket(scan: &mut Scan, bracket: Open) -> Result<(), NestError>
    requires { Sound bracket.index (nesting_of scan.now) }
    ensures { Moves (closed bracket (nesting_of scan.old).around (nesting_of scan.old).partners) (nesting_of scan.new) result }
{
    let Some(innermost) = scan.around.pop() else {
        return Err(NestError::Refused(Refusal::Bracket(bracket.place)));
    };
    if close_of(innermost.code) != bracket.code {
        return Err(NestError::Refused(Refusal::Bracket(bracket.place)));
    }
    scan.partner[innermost.index as usize] = bracket.index;
    scan.partner.push(innermost.index)?;
    Ok(())
}

/// One mark of punctuation.
fn take_mark(scan: &mut Scan, mark: Open) -> Result<(), NestError>
    requires { Sound mark.index (nesting_of scan.now) }
    ensures { Moves (marked mark (nesting_of scan.old)) (nesting_of scan.new) result }
{
    if is_open(mark.code) {
        return open_bracket(scan, mark);
    }
    if is_close(mark.code) {
        return close_bracket(scan, mark);
    }
    scan.partner.push(mark.index)?;
    Ok(())
}

/// One token.
fn take_token(scan: &mut Scan, index: u32, kind: &Kind, place: Place) -> Result<(), NestError>
    requires { Sound index (nesting_of scan.now) }
    ensures { Moves (behind_token index kind.now place (nesting_of scan.old)) (nesting_of scan.new) result }
{
    match kind {
        Kind::Punct(c) => take_mark(
            scan,
            Open {
                index,
                code: *c,
                place,
            },
        ),
        _ => {
            scan.partner.push(index)?;
            Ok(())
        }
    }
}

/// The partners of the brackets among tokens.
///
/// # Errors
///
/// `Refused` with the leftmost bracket that closes none of its kind (`Bracket`) or that makes more
/// than 128 open at once (`TooNested`), else with the innermost one that is open at the end
/// (`Bracket`); and out of memory.
#[tactic(auto, using(crate::proofs::Scanning::nest_laws))]
pub fn nest(alloc: Global, tokens: &[Token]) -> Result<Groups, NestError>
    requires { length tokens.now ≤ 2 ^ 28 }
    ensures { Gives (partners_of tokens.now) result }
{
    let mut scan = Scan {
        around: Vec::new(alloc),
        partner: Vec::with_capacity(alloc, tokens.len())?,
    };
    'tokens: for (index, token) in tokens.iter().enumerate() {
        take_token(&mut scan, index as u32, &token.kind, token.place)?;
    }
    match scan.around.pop() {
        None => Ok(Groups {
            partner: scan.partner,
        }),
        Some(innermost) => Err(NestError::Refused(Refusal::Bracket(innermost.place))),
    }
}

#[cfg(test)]
mod tests {
    use super::*;

    fn at(column: u32) -> Place {
        Place { line: 1, column }
    }

    /// A token for each character, in the columns of the first line: a number for `1`.
    fn tokens_for(alloc: Global, text: &[char]) -> Result<Vec<Token>, NestError> {
        let mut tokens = Vec::with_capacity(alloc, text.len())?;
        let mut column = 0_u32;
        for c in text {
            column = column.saturating_add(1);
            let kind = match c {
                '1' => Kind::Number(1),
                _ => Kind::Punct(*c),
            };
            tokens.push(Token {
                kind,
                place: at(column),
            })?;
        }
        Ok(tokens)
    }

    #[test]
    fn partners(rt: HostRuntime) -> Result<(), NestError> {
        let tokens = tokens_for(
            rt.alloc(),
            &['[', '(', ')', ',', '{', '⟨', '1', '⟩', '}', ']'],
        )?;
        assert!(rt; tokens.len() <= 129);
        let groups = nest(rt.alloc(), &tokens)?;
        assert_eq!(rt;
            groups.partner.as_slice(),
            [9, 2, 1, 3, 8, 7, 6, 5, 4, 0].as_slice()
        );
        Ok(())
    }

    #[test]
    fn refusals(rt: HostRuntime) -> Result<(), NestError> {
        let rows: [(&[char], Option<Refusal>); 8] = [
            (&[], None),
            (&['1', ')'], Some(Refusal::Bracket(at(2)))),
            (&['(', '1'], Some(Refusal::Bracket(at(1)))),
            (&['[', '{', ';'], Some(Refusal::Bracket(at(2)))),
            (&['(', '[', ')', ']'], Some(Refusal::Bracket(at(3)))),
            (&['⟨', '1', '⟩', '{', '1', '}'], None),
            (&['('; 128], Some(Refusal::Bracket(at(128)))),
            (&['('; 129], Some(Refusal::TooNested(at(129)))),
        ];
        for (text, wanted) in rows {
            let tokens = tokens_for(rt.alloc(), text)?;
            assert!(rt; tokens.len() <= 129);
            let refused = match nest(rt.alloc(), &tokens) {
                Ok(_) => None,
                Err(NestError::Refused(refusal)) => Some(refusal),
                Err(NestError::Memory) => return Err(NestError::Memory),
            };
            assert_eq!(rt; refused, wanted, "at {text:?}");
        }
        Ok(())
    }
}
