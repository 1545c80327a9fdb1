//! The tokens of a query, but for atoms.
ghost use Rattle.std.specs.Prelude.{◌≡◌, ◌≤◌, length};
ghost use Rattle.std.specs.List.{take_while};
ghost use Rattle.std.specs.Option.{option_map};
ghost use Rattle.span_core.specs.Names.{is_name_byte};
ghost use Rattle.query_parser.specs.Tokens.{word_token, sign_token, is_blank};
ghost use Rattle.query_parser.specs.Step.{word_at};
ghost use Rattle.query_parser.specs.View.{word_of, sign_of};

use span_core::is_name_byte;

/// The words of queries, and any other word.
#[derive(Clone, Copy, Debug)]
pub(crate) enum Word {
    Let,
    Union,
    Join,
    Project,
    None,
    Name,
}

/// The signs of queries.
#[derive(Clone, Copy, Debug)]
pub(crate) enum Sign {
    Equals,
    Semicolon,
    Open,
    Close,
    Comma,
}

/// What kind of word this is.
pub(crate) fn word_of(word: &[u8]) -> Word
    ensures { word_of result word.now ≡ word_token word.now }
{
    if word == b"let".as_slice() {
        Word::Let
    } else if word == b"union".as_slice() {
        Word::Union
    } else if word == b"join".as_slice() {
        Word::Join
    } else if word == b"project".as_slice() {
        Word::Project
    } else if word == b"none".as_slice() {
        Word::None
    } else {
        Word::Name
    }
}

/// The sign that a byte is.
pub(crate) fn sign_of(c: u8) -> Option<Sign>
    ensures { option_map sign_of result ≡ sign_token c }
{
    match c {
        b'=' => Some(Sign::Equals),
        b';' => Some(Sign::Semicolon),
        b'(' => Some(Sign::Open),
        b')' => Some(Sign::Close),
        b',' => Some(Sign::Comma),
        _ => None,
    }
}

pub(crate) fn is_blank(c: u8) -> bool
    ensures { result ≡ is_blank c }
{
    matches!(c, b' ' | b'\t' | b'\n' | b'\r')
}

/// The name bytes at the front.
fn word_len(text: &[u8]) -> usize
    ensures value { result ≡ length (take_while is_name_byte text.now) }
    ensures within { result ≤ length text.now }
{
    text.iter().take_while(|c| is_name_byte(**c)).count()
}

/// The longest run of name bytes at the front.
#[tactic(auto, using(formula_parser::proofs::RunLaws::take_run))]
pub(crate) fn word_at(text: &[u8]) -> &[u8]
    ensures { result.now ≡ word_at text.now }
{
    let (word, _) = text.split_at(word_len(text));
    word
}
