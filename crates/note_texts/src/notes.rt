//! The texts of notes.
ghost use Rattle.std.specs.Prelude.{◌≡◌, ◌++◌, codes, OnOk, OnErr};
ghost use Rattle.std.specs.Fmt.{decimal};
ghost use Rattle.std.specs.Str.{IsUtf8};
ghost use Rattle.span_core.specs.Lists.{IsPrefixOf};
ghost use Rattle.note_texts.specs.Notes.{QuotesUtf8, about, at_place, check_note, number_between, fault_note, fixed_text, formula_note, note_text, size_note};

use crate::note::{FixedNote, Note};
use cell_text::push_bytes;
use formula_parser::FormulaFault;
use functional_check::CheckFault;
use itoa::Buffer;
use marked_automaton::{MOST_STATES, MOST_WAYS, SizeFault};
use query_parser::{MOST_TEXT_BYTES, QueryFault};
use span_core::{MOST_VARIABLES, Name, OutOfMemory};

/// Appends the text of a note, which has no line's end, or leaves `out` as it was. Places count bytes from 0.
pub fn push_note(note: &Note<'_>, out: &mut Vec<u8>) -> Result<(), OutOfMemory>
    ensures ok { OnOk result (out.new.items ≡ out.old.items ++ note_text note.now) }
    ensures err { OnErr result (out.new.items ≡ out.old.items) }
    ensures utf8 { QuotesUtf8 note.now → IsUtf8 (note_text note.now) }
{
    let start = out.len();
    match push_text(note, out) {
        Ok(()) => Ok(()),
        Err(OutOfMemory) => {
            out.truncate(start);
            Err(OutOfMemory)
        }
    }
}

fn push_text(note: &Note<'_>, out: &mut Vec<u8>) -> Result<(), OutOfMemory>
    ensures ok { OnOk result (out.new.items ≡ out.old.items ++ note_text note.now) }
    ensures front { IsPrefixOf out.old.items out.new.items }
    ensures utf8 { QuotesUtf8 note.now → IsUtf8 (note_text note.now) }
{
    match *note {
        Note::Fixed(fixed) => push_fixed(fixed, out),
        Note::More { cursor } => push_behind("more ", cursor, out),
        Note::Query(fault) => push_query(fault, out),
        Note::QueryTooLong { most } => push_counted("query: longer than ", most, " bytes", out),
        Note::DocumentTooLong { most } => push_counted(
            "document longer than ",
            most,
            " bytes",
            out,
        ),
        Note::RequestTooLong { most } => push_counted("request longer than ", most, " bytes", out),
        Note::Size(fault) => push_size(fault, out),
        Note::OtherDocument { kept, found } => {
            let (kept, found) = (u64::from(kept), u64::from(found));
            push_two("cursor: document of ", kept, " bytes, not ", found, out)
        }
        Note::Table { limit } => push_number("size: table past ", limit, out),
        Note::Filter { limit } => push_number("size: filter past ", limit, out),
    }
}

/// A note that is always the same: its line without the end.
#[tactic(auto, using(crate::proofs::Fixed::without_end))]
fn push_fixed(note: FixedNote, out: &mut Vec<u8>) -> Result<(), OutOfMemory>
    ensures ok { OnOk result (out.new.items ≡ out.old.items ++ fixed_text note) }
    ensures front { IsPrefixOf out.old.items out.new.items }
    ensures utf8 { IsUtf8 (fixed_text note) }
{
    let line = note.as_line().as_bytes();
    push_bytes(&line[..line.len() - 1], out)
}

/// A text, and bytes behind it.
#[tactic(auto, using(crate::proofs::Utf8::both_utf8))]
fn push_behind(what: &str, bytes: &[u8], out: &mut Vec<u8>) -> Result<(), OutOfMemory>
    ensures ok { OnOk result (out.new.items ≡ out.old.items ++ (what.now ++ bytes.now)) }
    ensures front { IsPrefixOf out.old.items out.new.items }
    ensures utf8 { IsUtf8 bytes.now → IsUtf8 (what.now ++ bytes.now) }
{
    let what = what.as_bytes();
    push_bytes(what, out)?;
    push_bytes(bytes, out)
}

/// Two texts, each with a number behind it.
fn push_two(
    before: &str,
    first: u64,
    between: &str,
    second: u64,
    out: &mut Vec<u8>,
) -> Result<(), OutOfMemory>
    ensures ok { OnOk result (out.new.items ≡ out.old.items ++ (at_place before.now first ++ at_place between.now second)) }
    ensures front { IsPrefixOf out.old.items out.new.items }
    ensures utf8 { IsUtf8 (at_place before.now first ++ at_place between.now second) }
{
    push_number(before, first, out)?;
    push_number(between, second, out)
}

fn push_query(fault: &QueryFault, out: &mut Vec<u8>) -> Result<(), OutOfMemory>
    ensures ok { OnOk result (out.new.items ≡ out.old.items ++ fault_note fault.now) }
    ensures front { IsPrefixOf out.old.items out.new.items }
    ensures utf8 { IsUtf8 (fault_note fault.now) }
{
    match fault {
        QueryFault::Formula(fault) => push_formula(fault, out),
        QueryFault::Check(fault) => push_check(fault, out),
        QueryFault::Unexpected { at } => push_at("query: unexpected at ", *at, out),
        QueryFault::UnknownName { at } => push_at("query: unknown name at ", *at, out),
        QueryFault::NameTwice { at } => push_at("query: name twice at ", *at, out),
        QueryFault::NameTooLong { at } => push_at("query: name too long at ", *at, out),
        QueryFault::UnknownVariable { var } => {
            push_about("query: no variable ", var, " to keep", out)
        }
        QueryFault::TooManyVariables => {
            push_counted(
                "query: more than ",
                MOST_VARIABLES as u64,
                " variables",
                out,
            )
        }
        QueryFault::TooLong => {
            push_counted("query: longer than ", MOST_TEXT_BYTES as u64, " bytes", out)
        }
        QueryFault::TooDeep { at } => push_at("query: too deep at ", *at, out),
        QueryFault::OutOfMemory => push_fixed(FixedNote::OutOfMemory, out),
        QueryFault::JoinUnsure { var } => push_about(
            "query: variable ",
            var,
            " not sure on both sides of join",
            out,
        ),
        QueryFault::UnknownTest { at } => push_at("query: unknown test at ", *at, out),
        QueryFault::TestVariable { var } => {
            push_about("query: no variable ", var, " to test", out)
        }
        QueryFault::MinusVariables { var } => push_about(
            "query: variable ",
            var,
            " not on both sides of minus",
            out,
        ),
    }
}

fn push_size(fault: &SizeFault, out: &mut Vec<u8>) -> Result<(), OutOfMemory>
    ensures ok { OnOk result (out.new.items ≡ out.old.items ++ size_note fault.now) }
    ensures front { IsPrefixOf out.old.items out.new.items }
    ensures utf8 { IsUtf8 (size_note fault.now) }
{
    match fault {
        SizeFault::States { count: _ } => {
            push_counted("size: more than ", u64::from(MOST_STATES), " states", out)
        }
        SizeFault::Ways { count: _ } => {
            push_counted("size: more than ", MOST_WAYS as u64, " ways", out)
        }
        SizeFault::OutOfMemory => push_fixed(FixedNote::OutOfMemory, out),
    }
}

fn push_formula(fault: &FormulaFault, out: &mut Vec<u8>) -> Result<(), OutOfMemory>
    ensures ok { OnOk result (out.new.items ≡ out.old.items ++ formula_note fault.now) }
    ensures front { IsPrefixOf out.old.items out.new.items }
    ensures utf8 { IsUtf8 (formula_note fault.now) }
{
    match fault {
        FormulaFault::Unexpected { at } => push_at("query: unexpected at ", *at, out),
        FormulaFault::Unclosed { at } => push_at("query: not closed at ", *at, out),
        FormulaFault::BadEscape { at } => push_at("query: bad escape at ", *at, out),
        FormulaFault::BadRange { at } => push_at("query: bad range at ", *at, out),
        FormulaFault::BadRepeat { at } => push_at("query: bad repeat at ", *at, out),
        FormulaFault::DoubleRepeat { at } => push_at("query: repeat after repeat at ", *at, out),
        FormulaFault::Anchor { at } => push_at("query: anchor at ", *at, out),
        FormulaFault::NameTooLong { at } => push_at("query: name too long at ", *at, out),
        FormulaFault::ReservedName { at } => push_at("query: reserved name at ", *at, out),
        FormulaFault::TooDeep { at } => push_at("query: too deep at ", *at, out),
        FormulaFault::NotUtf8 { at } => push_at("query: not UTF-8 at ", *at, out),
        FormulaFault::UnknownProperty { at } => { push_at("query: unknown property at ", *at, out) }
        FormulaFault::OutOfMemory => push_fixed(FixedNote::OutOfMemory, out),
    }
}

fn push_check(fault: &CheckFault, out: &mut Vec<u8>) -> Result<(), OutOfMemory>
    ensures ok { OnOk result (out.new.items ≡ out.old.items ++ check_note fault.now) }
    ensures front { IsPrefixOf out.old.items out.new.items }
    ensures utf8 { IsUtf8 (check_note fault.now) }
{
    match fault {
        CheckFault::BoundTwice { var } => push_about("query: variable ", var, " twice", out),
        CheckFault::UnderRepeat { var } => {
            push_about("query: variable ", var, " under a repeat", out)
        }
    }
}

/// A text and a number behind it.
#[tactic(auto, using(crate::proofs::Utf8::number_utf8))]
fn push_number(what: &str, number: u64, out: &mut Vec<u8>) -> Result<(), OutOfMemory>
    ensures ok { OnOk result (out.new.items ≡ out.old.items ++ at_place what.now number) }
    ensures front { IsPrefixOf out.old.items out.new.items }
    ensures utf8 { IsUtf8 (at_place what.now number) }
{
    let what = what.as_bytes();
    push_bytes(what, out)?;
    let mut buffer = Buffer::new();
    push_bytes(buffer.format(number).as_bytes(), out)
}

fn push_at(what: &str, at: usize, out: &mut Vec<u8>) -> Result<(), OutOfMemory>
    ensures ok { OnOk result (out.new.items ≡ out.old.items ++ at_place what.now at) }
    ensures front { IsPrefixOf out.old.items out.new.items }
    ensures utf8 { IsUtf8 (at_place what.now at) }
{
    push_number(what, at as u64, out)
}

/// A number between two texts.
#[tactic(auto, using(crate::proofs::Utf8::both_utf8))]
fn push_counted(
    before: &str,
    number: u64,
    after: &str,
    out: &mut Vec<u8>,
) -> Result<(), OutOfMemory>
    ensures ok { OnOk result (out.new.items ≡ out.old.items ++ number_between before.now number after.now) }
    ensures front { IsPrefixOf out.old.items out.new.items }
    ensures utf8 { IsUtf8 (number_between before.now number after.now) }
{
    let last = after.as_bytes();
    push_number(before, number, out)?;
    push_bytes(last, out)
}

/// A variable between two texts.
#[tactic(auto, using(crate::proofs::Utf8::about_utf8))]
fn push_about(before: &str, name: &Name, after: &str, out: &mut Vec<u8>) -> Result<(), OutOfMemory>
    ensures ok { OnOk result (out.new.items ≡ out.old.items ++ about before.now name.now after.now) }
    ensures front { IsPrefixOf out.old.items out.new.items }
    ensures utf8 { IsUtf8 (about before.now name.now after.now) }
{
    let (before, middle, after) = (before.as_bytes(), name.as_bytes(), after.as_bytes());
    push_bytes(before, out)?;
    push_bytes(middle, out)?;
    push_bytes(after, out)
}
