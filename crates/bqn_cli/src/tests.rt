use crate::command::command;
use bqn_base::{Status, Text};
use bqn_io::{MemoryFiles, MemorySink, MemorySource};
use std::alloc::{AllocError, Global};
use std::test::Fail;

mod codes;
mod grammar;
mod scope;

/// Words of a command line that are split at spaces.
fn words_of(alloc: Global, line: &str) -> Result<Vec<String>, AllocError> {
    let mut words = Vec::new(alloc);
    for word in line.split_whitespace() {
        words.push(String::from_str(alloc, word)?)?;
    }
    Ok(words)
}

/// The status of a command line where the file `f` has this source, and what it wrote.
fn ran(
    rt: &HostRuntime,
    line: &str,
    source: &[u8],
    failing: &[u64],
) -> Result<(Status, Vec<u8>), Fail> {
    let alloc = rt.alloc();
    let words = words_of(alloc, line)?;
    let file = (Text::new(alloc, &['f'])?, source.to_vec(alloc)?);
    let mut files = MemoryFiles::new(alloc, vec![in alloc; file]?, Vec::new(alloc))?;
    let mut input = MemorySource::new(Vec::new(alloc), 1, Vec::new(alloc));
    let mut output = MemorySink::new(alloc, 4096, failing.to_vec(alloc)?)?;
    let status = command(alloc, &words, &mut files, &mut input, &mut output);
    Ok((status, output.written().to_vec(alloc)?))
}

/// Whether the file `f` with this source is accepted.
fn is_accepted(rt: &HostRuntime, source: &str) -> Result<bool, Fail> {
    let (status, bytes) = ran(rt, "check f", source.as_bytes(), &[])?;
    Ok(bytes.is_empty() && status == Status::Done)
}

/// Whether both commands answer this refusal where the file `f` has this source.
fn is_refused(rt: &HostRuntime, source: &str, refusal: &str) -> Result<bool, Fail> {
    let line = format!(in rt.alloc(); "Refused: {refusal}\n")?;
    let (_, by_run) = ran(rt, "run f", source.as_bytes(), &[])?;
    let (status, by_check) = ran(rt, "check f", source.as_bytes(), &[])?;
    let is_line = by_run.as_slice() == line.as_bytes() && by_check.as_slice() == line.as_bytes();
    Ok(is_line && status == Status::Refused)
}

#[test]
fn scripts(rt: HostRuntime) -> Result<(), Fail> {
    let not_yet = "Refused: NotYet\n";
    for (source, written, status) in [
        ("", "", Status::Done),
        ("•Show 2+3", "5\n", Status::Done),
        (
            "•Show 9223372036854775807+1",
            "Error: Overflow at 1:26\n",
            Status::Fault,
        ),
        ("•Show 10-2-3", "11\n", Status::Done),
        ("1 •Show 2", "Error: Domain at 1:3\n", Status::Fault),
        (
            "•Show 1,•Show ×-7\n⋄•Show\t¯2×3,,",
            "1\n¯1\n¯6\n",
            Status::Done,
        ),
        (
            "•Show ¯9223372036854775808⋄-¯9223372036854775808",
            "¯9223372036854775808\nError: Overflow at 1:28\n",
            Status::Fault,
        ),
        ("•Show ¯0\n•SHOW ×0 # zero\r\n", "0\n0\n", Status::Done),
        ("•Show 1_0e2-1_e1", "990\n", Status::Done),
        ("a_B←1e3 # c\n•Show ab-1_0", "990\n", Status::Done),
        ("a←2 ⋄ b←a×(a+3) ⋄ •Show -b", "¯10\n", Status::Done),
        ("•Show(•Show 1)+(•Show 2)", "2\n1\n3\n", Status::Done),
        ("•Show ((1))-(2-(3))", "2\n", Status::Done),
        (
            "a←•Show 1⋄•Show 9223372036854775807+a⋄•Show a",
            "1\nError: Overflow at 1:36\n",
            Status::Fault,
        ),
        ("•Show a⋄a←1", "Refused: Early 1:7\n", Status::Refused),
        ("a←1⋄a←2", "Refused: Redefined 1:5\n", Status::Refused),
        ("a←a", "Refused: Early 1:3\n", Status::Refused),
        ("F←+", not_yet, Status::Refused),
        ("a←b←1", not_yet, Status::Refused),
        ("1+(a←2)", not_yet, Status::Refused),
        ("•Show 7÷2", not_yet, Status::Refused),
        ("•Show {𝕩}1", not_yet, Status::Refused),
        ("A←1", "Refused: Grammar 1:1\n", Status::Refused),
        ("1 2", "Refused: Grammar 1:1\n", Status::Refused),
        ("•show 1", "Refused: Grammar 1:1\n", Status::Refused),
        ("f ← {𝕩+1}", "Refused: Grammar 1:1\n", Status::Refused),
        ("1;2", "Refused: Grammar 1:1\n", Status::Refused),
        ("(1⋄2)", "Refused: Grammar 1:2\n", Status::Refused),
        ("()", "Refused: Grammar 1:2\n", Status::Refused),
        ("1)", "Refused: Bracket 1:2\n", Status::Refused),
        ("(1", "Refused: Bracket 1:1\n", Status::Refused),
        ("•Show (", "Refused: Bracket 1:7\n", Status::Refused),
        ("{}", "Refused: BadBlock 1:1\n", Status::Refused),
        ("{𝕊 1 2: 3}", "Refused: BadBlock 1:2\n", Status::Refused),
        ("$", "Refused: BadChar 1:1\n", Status::Refused),
        ("'ab'", "Refused: OpenQuote 1:1\n", Status::Refused),
        ("3i4", "Refused: BadNumber 1:1\n", Status::Refused),
        ("1.5", "Refused: NumberRange 1:1\n", Status::Refused),
        ("∞", "Refused: NumberRange 1:1\n", Status::Refused),
        ("_1", "Refused: BadName 1:1\n", Status::Refused),
        ("•Show \"ab", "Refused: OpenQuote 1:7\n", Status::Refused),
        (
            "•Show 9223372036854775808",
            "Refused: NumberRange 1:7\n",
            Status::Refused,
        ),
        ("\t¯", "Refused: BadNumber 1:2\n", Status::Refused),
    ] {
        let (ended, bytes) = ran(&rt, "run f", source.as_bytes(), &[])?;
        assert_eq!(rt; bytes.as_slice(), written.as_bytes(), "{source}");
        assert_eq!(rt; ended, status, "{source}");
    }
    Ok(())
}

fn repeated(alloc: Global, byte: u8, count: u32) -> Result<Vec<u8>, AllocError> {
    let mut bytes = Vec::new(alloc);
    for _ in 0..count {
        bytes.push(byte)?;
    }
    Ok(bytes)
}

#[test]
fn sources_of_many_bytes(rt: HostRuntime) -> Result<(), Fail> {
    for (byte, count, written) in [
        (b' ', 1_048_577, "Refused: TooLong\n"),
        (b' ', 1_048_576, ""),
        (b',', 4097, "Refused: NotYet\n"),
        (b',', 4096, ""),
    ] {
        let source = repeated(rt.alloc(), byte, count)?;
        let (_, bytes) = ran(&rt, "run f", &source, &[])?;
        assert_eq!(rt; bytes.as_slice(), written.as_bytes(), "{count}");
    }
    let (_, bytes) = ran(&rt, "run f", b"1\n\xff", &[])?;
    assert_eq!(rt;
        bytes.as_slice(),
        b"Refused: NotUtf8 at byte 2\n".as_slice()
    );
    Ok(())
}

#[test]
fn one_block_too_many(rt: HostRuntime) -> Result<(), Fail> {
    let mut source = String::new(rt.alloc());
    for _ in 0..65_535 {
        source.push_str("{0}\n")?;
    }
    assert!(rt; is_accepted(&rt, &source)?);
    source.push_str("{0}\n")?;
    let (status, bytes) = ran(&rt, "check f", source.as_bytes(), &[])?;
    assert_eq!(rt; bytes.as_slice(), b"Refused: TooMany 65536:1\n".as_slice());
    assert_eq!(rt; status, Status::Refused);
    Ok(())
}

#[test]
fn parentheses(rt: HostRuntime) -> Result<(), Fail> {
    let alloc = rt.alloc();
    for (depth, written) in [(128, "1\n"), (129, "Refused: TooNested 1:135\n")] {
        let mut source = String::from_str(alloc, "•Show ")?;
        for _ in 0..depth {
            source.push('(')?;
        }
        source.push('1')?;
        for _ in 0..depth {
            source.push(')')?;
        }
        let (_, bytes) = ran(&rt, "run f", source.as_bytes(), &[])?;
        assert_eq!(rt; bytes.as_slice(), written.as_bytes(), "at {depth}");
    }
    let (_, bytes) = ran(&rt, "run f", &repeated(alloc, b'(', 129)?, &[])?;
    assert_eq!(rt; bytes.as_slice(), b"Refused: TooNested 1:129\n".as_slice());
    Ok(())
}

#[test]
fn places_of_refusals(rt: HostRuntime) -> Result<(), Fail> {
    let alloc = rt.alloc();
    for (bad, kind) in [
        ("$", "BadChar"),
        ("\"", "OpenQuote"),
        ("3i4", "BadNumber"),
        ("1.5", "NumberRange"),
        ("_1", "BadName"),
    ] {
        for (front, back, place) in [
            ("", "\n1", "1:1"),
            ("1⋄'é'\n\t\"€\" ", " ⋄2", "2:6"),
            ("'𝕩'\n\n1 ", "", "3:3"),
        ] {
            let source = format!(in alloc; "{front}{bad}{back}")?;
            let written = format!(in alloc; "Refused: {kind} {place}\n")?;
            let (_, bytes) = ran(&rt, "run f", source.as_bytes(), &[])?;
            assert_eq!(rt; bytes.as_slice(), written.as_bytes(), "{source}");
        }
    }
    Ok(())
}

#[test]
fn every_symbol(rt: HostRuntime) -> Result<(), Fail> {
    let source =
        "+-×÷⋆√⌊⌈|¬∧∨<>≠=≤≥≡≢⊣⊢⥊∾≍⋈↑↓↕«»⌽⍉/⍋⍒⊏⊑⊐⊒∊⍷⊔!˙˜˘¨⌜⁼´˝`∘○⊸⟜⌾⊘◶⎉⚇⍟⎊←⇐↩(){}⟨⟩[]‿·⋄,.;:?\n𝕨𝕩𝕤𝕗𝕘𝕎𝕏𝕊𝔽𝔾𝕣 _𝕣 _𝕣_ @ '@' \"\" •x F _m _d_";
    let (status, bytes) = ran(&rt, "run f", source.as_bytes(), &[])?;
    assert_eq!(rt; bytes.as_slice(), b"Refused: Grammar 1:69\n".as_slice());
    assert_eq!(rt; status, Status::Refused);
    Ok(())
}

#[test]
fn command_lines(rt: HostRuntime) -> Result<(), Fail> {
    for (line, status) in [
        ("run f", Status::Done),
        ("run gone", Status::ReadFault),
        ("", Status::Usage),
        ("run", Status::Usage),
        ("run --steps", Status::Usage),
        ("run --steps 5 f", Status::Usage),
        ("run f a", Status::Usage),
        ("check f", Status::Done),
        ("check gone", Status::ReadFault),
        ("check --steps", Status::ReadFault),
        ("check", Status::Usage),
        ("check f a", Status::Usage),
        ("check --steps 5 f", Status::Usage),
        ("Check f", Status::Usage),
        ("Run f", Status::Usage),
    ] {
        let (ended, bytes) = ran(&rt, line, b"", &[])?;
        assert_eq!(rt; ended, status, "{line}");
        assert_eq!(rt;
            bytes.starts_with(b"Usage: run [--steps N] FILE"),
            status == Status::Usage,
            "{line}"
        );
    }
    Ok(())
}

#[test]
fn failing_sinks(rt: HostRuntime) -> Result<(), Fail> {
    for (line, source, failing, written) in [
        ("run f", "•Show 2+3", 1, ""),
        ("run f", "•Show 1⋄•Show 2⋄•Show 3", 2, "1\n"),
        ("run f", "•Show 1⋄1-¯9223372036854775808", 2, "1\n"),
        ("run f", "÷", 1, ""),
        ("run f", "$", 1, ""),
        ("", "", 1, ""),
        ("check f", "$", 1, ""),
    ] {
        let (status, bytes) = ran(&rt, line, source.as_bytes(), &[failing])?;
        assert_eq!(rt; status, Status::WriteFault, "{source}");
        assert_eq!(rt; bytes.as_slice(), written.as_bytes(), "{source}");
    }
    Ok(())
}
