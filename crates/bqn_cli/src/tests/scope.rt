use super::{is_accepted, is_refused};
use std::test::Fail;

#[test]
fn refused_definitions_and_names(rt: HostRuntime) -> Result<(), Fail> {
    for (source, refusal) in [
        ("a", "Undeclared 1:1"),
        ("𝕩", "Undeclared 1:1"),
        ("_𝕣", "Undeclared 1:1"),
        ("{𝕩}⋄𝕨", "Undeclared 1:5"),
        ("{b←1}⋄b", "Undeclared 1:7"),
        ("{𝕩}b", "Undeclared 1:4"),
        ("x.b", "Undeclared 1:1"),
        ("A←{𝕩+b}⋄c", "Undeclared 1:6"),
        ("F←{x 𝕊 y: x+y+z}", "Undeclared 1:15"),
        ("{𝕩? a←1; a}", "Undeclared 1:10"),
        ("b⇐", "Undeclared 1:1"),
        ("⟨a⟩⇐", "Undeclared 1:2"),
        ("a←1⋄{a⇐}", "Undeclared 1:6"),
        ("b⋄•Foo 1", "Undeclared 1:1"),
        ("•Foo b", "UnknownSystem 1:1"),
        ("•_foo", "UnknownSystem 1:1"),
        ("a←1⋄a←2", "Redefined 1:5"),
        ("a⇐1⋄a⇐2", "Redefined 1:5"),
        ("A←{𝕩}⋄a←1", "Redefined 1:7"),
        ("⟨a,a⟩←1‿2", "Redefined 1:4"),
        ("{F _f x: 1}", "Redefined 1:4"),
        ("{x 𝕊 x: 1}", "Redefined 1:6"),
        ("{𝕊 ⟨x,x⟩: 1}", "Redefined 1:7"),
        ("{𝕊 x: x←1}", "Redefined 1:7"),
        ("a←1⋄b←a⋄a←2", "Redefined 1:9"),
    ] {
        assert!(rt; is_refused(&rt, source, refusal)?, "{source}");
    }
    Ok(())
}

#[test]
fn refused_early_uses(rt: HostRuntime) -> Result<(), Fail> {
    for (source, refusal) in [
        ("•Show a⋄a←1", "Early 1:7"),
        ("a←1⋄{a←a}", "Early 1:8"),
        ("a↩1⋄a←2", "Early 1:1"),
        ("(a←1)+a", "Early 1:7"),
        ("(a←1)+(a+a←2)", "Early 1:8"),
        ("a‿b←b‿1", "Early 1:5"),
        ("⟨a,a←1⟩", "Early 1:2"),
        ("(a←1)⟜a", "Early 1:7"),
        ("(G←+) - G", "Early 1:9"),
        ("a F↩ 1⋄a←2", "Early 1:1"),
        ("a -↩⋄a←1", "Early 1:1"),
        ("F a⋄a←1⋄F←+", "Early 1:1"),
        ("{𝕩=a? a←1; 2}", "Early 1:4"),
        ("a←b⋄{b}⋄b←1", "Early 1:3"),
    ] {
        assert!(rt; is_refused(&rt, source, refusal)?, "{source}");
    }
    Ok(())
}

#[test]
fn names_that_are_known(rt: HostRuntime) -> Result<(), Fail> {
    for source in [
        "a⇐⋄a←1",
        "a←1⋄a⇐⋄a⇐",
        "b←a+a←1",
        "a +↩ a←1",
        "⟨a←1,a⟩",
        "a⟜(a←1)",
        "G (G←+) -",
        "a←1⋄{a}",
        "{a}⋄a←1",
        "b←{a}⋄a←b",
        "a←1⋄{a←2}",
        "{{𝕩}}",
        "{𝕩+𝕨}",
        "F←{𝕊 n: n×F n-1}",
        "F←{𝕩≤1?1;𝕩×F𝕩-1}",
        "a←1⋄{𝕩=a?𝕩;a↩𝕩}",
        "{⟨x,y⟩ 𝕊 z: x+y+z}",
        "⟨a,b⟩←1‿2⋄a+b",
        "a←{b⇐1}⋄a.b",
        "a←{b⇐1}⋄a.c",
        "a_B←1⋄AB 2",
        "•OUT \"a\"",
    ] {
        assert!(rt; is_accepted(&rt, source)?, "{source}");
    }
    Ok(())
}
