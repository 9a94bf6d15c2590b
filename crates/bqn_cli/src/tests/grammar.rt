use super::{is_refused, ran};
use bqn_base::Status;
use std::test::Fail;

/// Whether the file `f` with this source breaks no rule of brackets, grammar or blocks: it is
/// accepted, or a name in it is refused.
fn is_well(rt: &HostRuntime, source: &str) -> Result<bool, Fail> {
    let (status, bytes) = ran(rt, "check f", source.as_bytes(), &[])?;
    let refusals = ["Undeclared", "Redefined", "Early"];
    let is_a_name = refusals.iter().any(|kind| bytes
        .strip_prefix(b"Refused: ")
        .is_some_and(|rest| rest.starts_with(kind.as_bytes())));
    Ok(is_a_name || status == Status::Done)
}

#[test]
fn well_pieces(rt: HostRuntime) -> Result<(), Fail> {
    for source in [
        "F ← {𝕩+1}",
        "a‿b←1‿2",
        "⟨a,·,b‿c⟩ ← ⟨1,2,\"xy\"⟩",
        "⟨⟩",
        "[1,⋄]",
        "⟨+·⟩",
        "(+·)",
        "{+·?1}",
        "F←G↩+",
        "_m←_n",
        "_m_←∘",
        "a F↩ 1",
        "a F↩",
        "1+a -↩ 2",
        "a⇐",
        "·⇐",
        "⟨·⟩⇐",
        "F⇐",
        "_m⇐",
        "a.b.C 1",
        "1‿+‿(2)",
        "+∘×⊸-",
        "1 + · -  ×",
        "⟨1⟩.a",
        "(a‿b).c",
        "˜",
        "(˜)",
        "{𝕊 0: 1; 𝕊 n: n×𝕊 n-1}",
    ] {
        assert!(rt; is_well(&rt, source)?, "{source}");
    }
    Ok(())
}

#[test]
fn well_blocks_and_patterns(rt: HostRuntime) -> Result<(), Fail> {
    for source in [
        "{𝕩<0? ¯1; 𝕩=0? 0; 1}",
        "{𝕨 F 𝕩: 1}",
        "{𝔽 _𝕣 𝕩: 𝔽}",
        "{F _m_ g 1‿x: 1}",
        "{a 𝕊 ⟨1,⟨b,·⟩⟩: a}",
        "{𝕩;𝕨}",
        "{𝕩𝔽𝕨;2}",
        "{𝔽 𝕩;𝕨}",
        "{\n1\n}",
        "F G H",
        "1 F G",
        "F 1 G H",
        "1 F · G H",
        "F G 1",
        "· F G",
        "1 F G H I",
        "a+⊸[1]↩2",
        "a.b.c.d",
        "a‿b.c",
        "{_𝕣}",
        "{_𝕣_}",
        "{𝕣}",
        "{F:1}",
        "{\"a\"𝕊·: 1}",
        "{a F _m x: 1}",
        "{⟨F⟩𝕊 F‿·: 1}",
        "{⟨1‿⟨a⟩⟩𝕊x: 1}",
    ] {
        assert!(rt; is_well(&rt, source)?, "{source}");
    }
    Ok(())
}

#[test]
fn refused_brackets_lists_and_headers(rt: HostRuntime) -> Result<(), Fail> {
    for (source, refusal) in [
        ("f ← {𝕩+1}", "Grammar 1:1"),
        ("{1;2}", "BadBlock 1:1"),
        ("{𝕩;𝕩;𝕩}", "BadBlock 1:1"),
        ("{1;𝕊x:2}", "BadBlock 1:1"),
        ("{⇐}", "Grammar 1:2"),
        ("F G 1 H", "Grammar 1:1"),
        ("1 G F H 2 F", "Grammar 1:1"),
        ("a b", "Grammar 1:1"),
        ("1)", "Bracket 1:2"),
        ("(1", "Bracket 1:1"),
        ("1;2", "Grammar 1:1"),
        ("{}", "BadBlock 1:1"),
        ("(1⋄2)", "Grammar 1:2"),
        ("{𝕊 1 2: 3}", "BadBlock 1:2"),
        ("⟨1⟩‿(b)←2", "Grammar 1:2"),
        ("⟨1⟩.a←2", "Grammar 1:1"),
        ("⟨1⟩‿a.b←2", "Grammar 1:1"),
        ("⟨1⟩‿+‿a←2", "Grammar 1:2"),
        ("[1]←2", "Grammar 1:1"),
        ("{𝕊[⟨+⟩]:1}", "BadBlock 1:2"),
        ("{𝕊⟨1⟩←2:1}", "Grammar 1:4"),
        ("{𝕊⟨1+2⟩:1}", "Grammar 1:4"),
        ("{:1}", "Grammar 1:2"),
        ("{1⋄:1}", "Grammar 1:4"),
        ("{𝕊: :1}", "Grammar 1:5"),
        ("{?1}", "Grammar 1:2"),
        ("{𝕊:𝕩:1}", "Grammar 1:4"),
        ("{𝕊\nx: 1}", "Grammar 2:1"),
        ("{1?}", "BadBlock 1:1"),
    ] {
        assert!(rt; is_refused(&rt, source, refusal)?, "{source}");
    }
    Ok(())
}

#[test]
fn refused_pieces_and_targets(rt: HostRuntime) -> Result<(), Fail> {
    for (source, refusal) in [
        ("{;1}", "BadBlock 1:1"),
        ("{𝕊x:}", "BadBlock 1:1"),
        ("⟨·⟩", "Grammar 1:2"),
        ("(·)", "Grammar 1:2"),
        ("·", "Grammar 1:1"),
        ("·˜1", "Grammar 1:1"),
        ("·.a", "Grammar 1:1"),
        ("{+?1}", "Grammar 1:2"),
        ("⟨a⇐⟩", "Grammar 1:2"),
        ("{𝕊x:𝔽x}", "BadBlock 1:1"),
        ("{𝕘 _m: 1}", "BadBlock 1:2"),
        ("{𝕗 _m_ 𝕗: 1}", "BadBlock 1:2"),
        ("[⋄]", "Grammar 1:3"),
        ("(⋄)", "Grammar 1:2"),
        ("()", "Grammar 1:2"),
        ("[]", "Grammar 1:2"),
        ("a b F↩ x", "Grammar 1:1"),
        ("⟨a⟩ F↩ x", "Grammar 1:1"),
        ("F↩ 5", "Grammar 1:1"),
        ("𝕩↩1", "Grammar 1:1"),
        ("a.b←1", "Grammar 1:1"),
        ("·←2", "Grammar 1:1"),
        ("·↩2", "Grammar 1:1"),
        ("·⇐2", "Grammar 1:1"),
        ("a←·", "Grammar 1:1"),
        ("a+⊸⟨1⟩↩2", "Grammar 1:5"),
        ("a+⊸b‿c↩2", "Grammar 1:1"),
        ("1‿·", "Grammar 1:1"),
        ("A.b", "Grammar 1:1"),
    ] {
        assert!(rt; is_refused(&rt, source, refusal)?, "{source}");
    }
    Ok(())
}

#[test]
fn refused_strands_fields_and_blocks(rt: HostRuntime) -> Result<(), Fail> {
    for (source, refusal) in [
        ("a.", "Grammar 1:1"),
        ("a‿", "Grammar 1:1"),
        ("‿a", "Grammar 1:1"),
        ("a←b⇐", "Grammar 1:1"),
        ("⟨1⇐⟩", "Grammar 1:2"),
        ("1⇐", "Grammar 1:1"),
        ("_m 1", "Grammar 1:1"),
        ("+_m←1", "Grammar 1:1"),
        ("F←_m", "Grammar 1:1"),
        ("_m←+", "Grammar 1:1"),
        ("a←+", "Grammar 1:1"),
        ("F←1", "Grammar 1:1"),
        ("(1)(2)", "Grammar 1:1"),
        ("{1 2}3 4", "Grammar 1:2"),
        ("({1 2}", "Bracket 1:1"),
        ("([)]", "Bracket 1:3"),
        ("{𝕊:𝕘}", "BadBlock 1:1"),
        ("{f _m: 1;𝕘}", "BadBlock 1:1"),
        ("{x F:1}", "BadBlock 1:2"),
        ("{𝕊F:1}", "BadBlock 1:2"),
        ("{𝕨𝕊:1}", "BadBlock 1:2"),
        ("{1:1}", "BadBlock 1:2"),
        ("{F G _m x: 1}", "BadBlock 1:2"),
        ("{𝕊⟨(1)⟩: 1}", "Grammar 1:4"),
        ("{𝕊⟨⟨1⟩←2⟩: 1}", "Grammar 1:5"),
        ("⟨a,⟨b,1⟩⟩←2", "Grammar 1:7"),
        ("⟨a,(⟨1⟩)⟩←2", "Grammar 1:4"),
        ("{𝕊⟨a⟩:⟨·⟩}", "Grammar 1:8"),
        ("{𝕩⋄⟨1⟩:2}", "Grammar 1:4"),
    ] {
        assert!(rt; is_refused(&rt, source, refusal)?, "{source}");
    }
    Ok(())
}
