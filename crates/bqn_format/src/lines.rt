//! The lines that end a run: of a fault, and of a refused source.

ghost use Rattle.std.specs.Prelude.{◌≡◌, ◌++◌, List, ℕ, IfOk, OnOk, IsTrue, decimal, encode_utf8_all};
ghost use Rattle.std.specs.Char.{is_ascii};
ghost use Rattle.std.specs.List.{list_all};
ghost use Rattle.std.specs.String.{string_bytes};
ghost use Rattle.bqn_base.specs.Printed.{error_place, fault_message, fault_name, refusal_text, shown_message};
ghost use Rattle.bqn_base.specs.Printed.{error_line as error_line_of};
ghost use Rattle.bqn_base.specs.Printed.{refusal_line as refusal_line_of};
ghost use Rattle.bqn_format.specs.Texts.{where_text};

use crate::places::{push_number, push_place};
use bqn_base::{Fault, Memory, Place, Refusal};
use std::alloc::{AllocError, Global};

/// The line of an uncaught fault, in UTF-8, with its newline: the fault's name, its place where there is one,
/// and the message of an `Assert` that has one.
///
/// # Errors
///
/// Want of memory.
pub fn error_line(alloc: Global, fault: &Fault, place: Option<Place>) -> Result<Vec<u8>, Memory>
    ensures { IfOk result (λ bytes. bytes.items ≡ encode_utf8_all (error_line_of fault.now place)) }
{
    match error_text(alloc, fault, place) {
        Ok(text) => Ok(text.into_bytes()),
        Err(_) => Err(Memory),
    }
}

/// The line of a refused source, in UTF-8, with its newline: the name of the refusal, and the place or the
/// count of bytes where it has one.
///
/// # Errors
///
/// Want of memory.
pub fn refusal_line(alloc: Global, refusal: &Refusal) -> Result<Vec<u8>, Memory>
    ensures { IfOk result (λ bytes. bytes.items ≡ encode_utf8_all (refusal_line_of refusal.now)) }
{
    match refusal_text(alloc, refusal) {
        Ok(text) => Ok(text.into_bytes()),
        Err(_) => Err(Memory),
    }
}

#[tactic(auto, using(crate::proofs::LineBytes::error_laws))]
fn error_text(alloc: Global, fault: &Fault, place: Option<Place>) -> Result<String, AllocError>
    ensures { IfOk result (λ text. string_bytes text ≡ encode_utf8_all (error_line_of fault.now place)) }
{
    let mut text = String::from_str(alloc, "Error: ")?;
    text.push_str(name(fault))?;
    push_error_place(&mut text, place)?;
    push_message(&mut text, message(fault))?;
    text.push('\n')?;
    Ok(text)
}

fn name(fault: &Fault) -> &'static str
    ensures { result.now ≡ fault_name fault.now }
{
    match fault {
        Fault::Assert(_) => "Assert",
        Fault::Domain => "Domain",
        Fault::Rank => "Rank",
        Fault::Length => "Length",
        Fault::Index => "Index",
        Fault::Overflow => "Overflow",
        Fault::NotWhole => "NotWhole",
        Fault::DivideByZero => "DivideByZero",
        Fault::CharRange => "CharRange",
        Fault::NoFill => "NoFill",
        Fault::NoIdentity => "NoIdentity",
        Fault::NoInverse => "NoInverse",
        Fault::UnderConflict => "UnderConflict",
        Fault::Undefined => "Undefined",
        Fault::NoBody => "NoBody",
        Fault::Pattern => "Pattern",
        Fault::NoField => "NoField",
        Fault::NotCallable => "NotCallable",
        Fault::NothingUsed => "NothingUsed",
        Fault::TooLarge => "TooLarge",
        Fault::TooDeep => "TooDeep",
        Fault::NoOrder => "NoOrder",
        Fault::NoCompare => "NoCompare",
        Fault::LeftOut => "LeftOut",
    }
}

fn message(fault: &Fault) -> &[char]
    ensures { shown_message result.now ≡ fault_message fault.now }
{
    match fault {
        Fault::Assert(message) => message.chars(),
        _ => &[],
    }
}

// Nothing where the message is empty.
#[tactic(auto, using(crate::proofs::LineBytes::message_laws))]
fn push_message(text: &mut String, message: &[char]) -> Result<(), AllocError>
    ensures { OnOk result (string_bytes text.new ≡ string_bytes text.old ++ encode_utf8_all (shown_message message.now)) }
{
    if message.is_empty() {
        return Ok(());
    }
    text.push_str(": ")?;
    for c in message {
        text.push(*c)?;
    }
    Ok(())
}

#[tactic(auto, using(crate::proofs::LineBytes::refusal_laws))]
fn refusal_text(alloc: Global, refusal: &Refusal) -> Result<String, AllocError>
    ensures { IfOk result (λ text. string_bytes text ≡ encode_utf8_all (refusal_line_of refusal.now)) }
{
    let (name, place) = name_and_where(refusal);
    let mut text = String::from_str(alloc, "Refused: ")?;
    text.push_str(name)?;
    push_where(&mut text, place)?;
    text.push('\n')?;
    Ok(text)
}

// What stands behind the name of a refusal.
#[derive(Clone, Copy)]
enum Where {
    Nowhere,
    Byte(u32),
    Place(Place),
}

fn name_and_where(refusal: &Refusal) -> (&'static str, Where)
    ensures text { refusal_text refusal.now ≡ result.0.now ++ where_text result.1 }
    ensures ascii { IsTrue (list_all is_ascii result.0.now) }
{
    match refusal {
        Refusal::NotUtf8 { at } => ("NotUtf8", Where::Byte(*at)),
        Refusal::TooLong => ("TooLong", Where::Nowhere),
        Refusal::BadChar(place) => ("BadChar", Where::Place(*place)),
        Refusal::OpenQuote(place) => ("OpenQuote", Where::Place(*place)),
        Refusal::BadNumber(place) => ("BadNumber", Where::Place(*place)),
        Refusal::NumberRange(place) => ("NumberRange", Where::Place(*place)),
        Refusal::BadName(place) => ("BadName", Where::Place(*place)),
        Refusal::Bracket(place) => ("Bracket", Where::Place(*place)),
        Refusal::TooNested(place) => ("TooNested", Where::Place(*place)),
        Refusal::Grammar(place) => ("Grammar", Where::Place(*place)),
        Refusal::BadBlock(place) => ("BadBlock", Where::Place(*place)),
        Refusal::Undeclared(place) => ("Undeclared", Where::Place(*place)),
        Refusal::Redefined(place) => ("Redefined", Where::Place(*place)),
        Refusal::Early(place) => ("Early", Where::Place(*place)),
        Refusal::TooMany(place) => ("TooMany", Where::Place(*place)),
        Refusal::UnknownSystem(place) => ("UnknownSystem", Where::Place(*place)),
        Refusal::NotYet => ("NotYet", Where::Nowhere),
    }
}

#[tactic(auto, using(crate::proofs::LineBytes::where_laws))]
fn push_where(text: &mut String, place: Where) -> Result<(), AllocError>
    ensures { OnOk result (string_bytes text.new ≡ string_bytes text.old ++ encode_utf8_all (where_text place)) }
{
    match place {
        Where::Nowhere => Ok(()),
        Where::Byte(at) => {
            text.push_str(" at byte ")?;
            push_number(text, at)
        }
        Where::Place(place) => {
            text.push(' ')?;
            push_place(text, place)
        }
    }
}

#[tactic(auto, using(crate::proofs::LineBytes::where_laws))]
fn push_error_place(text: &mut String, place: Option<Place>) -> Result<(), AllocError>
    ensures { OnOk result (string_bytes text.new ≡ string_bytes text.old ++ encode_utf8_all (error_place place)) }
{
    match place {
        None => Ok(()),
        Some(place) => {
            text.push_str(" at ")?;
            push_place(text, place)
        }
    }
}

#[cfg(test)]
mod tests {
    use super::{error_line, refusal_line};
    use bqn_base::{Fault, Place, Refusal, Text};
    use std::test::Fail;

    #[test]
    fn lines_of_faults(rt: HostRuntime) -> Result<(), Fail> {
        let silent = Text::new(rt.alloc(), &[])?;
        let message = Text::new(rt.alloc(), &['n', '≠', '1'])?;
        let place = Place {
            line: 1,
            column: 26,
        };
        for (fault, place, line) in [
            (Fault::DivideByZero, None, "Error: DivideByZero\n"),
            (
                Fault::DivideByZero,
                Some(place),
                "Error: DivideByZero at 1:26\n",
            ),
            (
                Fault::Assert(silent),
                Some(place),
                "Error: Assert at 1:26\n",
            ),
            (
                Fault::Assert(message),
                Some(place),
                "Error: Assert at 1:26: n≠1\n",
            ),
        ] {
            let bytes = error_line(rt.alloc(), &fault, place)?;
            assert_eq!(rt; bytes.as_slice(), line.as_bytes(), "{line}");
        }
        Ok(())
    }

    #[test]
    fn lines_of_refusals(rt: HostRuntime) -> Result<(), Fail> {
        let place = Place {
            line: 2,
            column: 13,
        };
        for (refusal, line) in [
            (Refusal::NotUtf8 { at: 7 }, "Refused: NotUtf8 at byte 7\n"),
            (Refusal::TooLong, "Refused: TooLong\n"),
            (
                Refusal::UnknownSystem(place),
                "Refused: UnknownSystem 2:13\n",
            ),
        ] {
            let bytes = refusal_line(rt.alloc(), &refusal)?;
            assert_eq!(rt; bytes.as_slice(), line.as_bytes(), "{line}");
        }
        Ok(())
    }
}
