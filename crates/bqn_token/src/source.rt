ghost use Rattle.std.specs.Prelude.{◌≤◌, ◌^◌, IfOk, length};
ghost use Rattle.std.specs.List.{All};
ghost use Rattle.bqn_syntax.specs.text.Fitting.{TokenBegins, TokenFits};
ghost use Rattle.bqn_syntax.specs.text.Tokens.{tokens_of_source};
ghost use Rattle.bqn_token.specs.Tokenizing.{Tokenizes};

use crate::cut::tokens_in;
use crate::error::TokenError;
use crate::text::text;
use bqn_syntax::Token;
use std::alloc::Global;

/// The tokens of a source, each with the place of its first code point.
///
/// # Errors
///
/// The refusal of a source that is too long or no UTF-8, or of its leftmost bad token; want of memory.
#[tactic(auto, using(crate::proofs::Pieces::source_laws))]
pub fn tokens(alloc: Global, bytes: &[u8]) -> Result<Vec<Token>, TokenError>
    ensures exact { Tokenizes (tokens_of_source bytes.now) result }
    ensures few { IfOk result (λ tokens. length tokens.items ≤ 2 ^ 20) }
    ensures fits { IfOk result (λ tokens. All TokenFits tokens.items) }
    ensures letters { IfOk result (λ tokens. All TokenBegins tokens.items) }
{
    let text = text(alloc, bytes)?;
    tokens_in(alloc, text.as_slice())
}

#[cfg(test)]
mod tests {
    use super::*;
    use bqn_base::{Place, Refusal};
    use std::test::Fail;

    #[test]
    fn accepts_lines(rt: HostRuntime) -> Result<(), Fail> {
        let rows = [
            ("", "[]"),
            (
                "1_.a\r\n# c\r",
                "[Token { kind: Number(1), place: Place { line: 1, column: 1 } }, Token { kind: Punct('.'), place: Place { line: 1, column: 3 } }, Token { kind: Word(Name { chars: ['a'] }, Subject), place: Place { line: 1, column: 4 } }, Token { kind: Punct('\\n'), place: Place { line: 1, column: 5 } }]",
            ),
            (
                "'\n'`\t\"\"\"\"",
                "[Token { kind: Char('\\n'), place: Place { line: 1, column: 1 } }, Token { kind: Given(52), place: Place { line: 2, column: 2 } }, Token { kind: Text(Text { chars: ['\"'] }), place: Place { line: 2, column: 4 } }]",
            ),
            (
                "•Sh_Ow_𝕊_𝕣_",
                "[Token { kind: System(Name { chars: ['s', 'h', 'o', 'w'] }, Function), place: Place { line: 1, column: 1 } }, Token { kind: Special(Own, Function), place: Place { line: 1, column: 8 } }, Token { kind: Special(Modifier, Mod2), place: Place { line: 1, column: 9 } }]",
            ),
        ];
        for (source, want) in rows {
            let tokens = tokens(rt.alloc(), source.as_bytes())?;
            let shown = format!(in rt.alloc(); "{tokens:?}")?;
            assert_eq!(rt; shown.as_str(), want, "at {source}");
        }
        Ok(())
    }

    #[test]
    fn refuses_sources(rt: HostRuntime) {
        let place = |line, column| Place { line, column };
        let rows: [(&[u8], Refusal); 12] = [
            (b"$", Refusal::BadChar(place(1, 1))),
            (b"1\r2", Refusal::BadChar(place(1, 2))),
            (b"\r\r\n", Refusal::BadChar(place(1, 1))),
            (b"'ab'", Refusal::OpenQuote(place(1, 1))),
            (b"\"ab\"\"", Refusal::OpenQuote(place(1, 5))),
            (b"3i4", Refusal::BadNumber(place(1, 1))),
            ("\n ∞".as_bytes(), Refusal::NumberRange(place(2, 2))),
            (b"a1.5", Refusal::BadName(place(1, 1))),
            (b"1._5", Refusal::BadName(place(1, 3))),
            ("+•1".as_bytes(), Refusal::BadName(place(1, 2))),
            (b"1 $ \"", Refusal::BadChar(place(1, 3))),
            (&[49, 10, 255], Refusal::NotUtf8 { at: 2 }),
        ];
        for (source, want) in rows {
            let refused = tokens(rt.alloc(), source).err();
            assert_eq!(rt; refused, Some(TokenError::Refused(want)));
        }
    }
}
