//! The tokens that stand for themselves: escapes, the heads of captures, the braces of repeats.
//!
//! Each is a function of the text from its first byte on, which answers what the token stands for and how many bytes
//! it takes, or None. Its equation in `specs/Tokens.antt` is the same function; one pair of lemmas a token joins that
//! to the grammar.
ghost use Rattle.std.specs.Prelude.{◌≡◌, ◌+◌, ◌≤◌, ◌<◌, ◌&&◌, ◌-◌, length, drop, nat_le, if◌then◌else◌, Some, None, IfSome};
ghost use Rattle.std.specs.List.{take_while, list_all};
ghost use Rattle.std.specs.Option.{option_map};
ghost use Rattle.span_core.specs.Names.{is_name_byte};
ghost use Rattle.formula_parser.specs.Sets.{digits, word_bytes, spaces};
ghost use Rattle.formula_parser.specs.Runs.{begins_with};
ghost use Rattle.formula_parser.specs.Escapes.{byte, elem_set, hex_value, is_punctuation};
ghost use Rattle.formula_parser.specs.Names.{is_word};
ghost use Rattle.formula_parser.specs.Repeats.{is_digit, value_after};
ghost use Rattle.formula_parser.specs.Spells.{is_tail};
ghost use Rattle.formula_parser.specs.Tokens.{escape_at, hex_byte, head_at, number_at, between_at, most_at, rest_at, bounds_at, tails};
ghost use Rattle.formula_parser.specs.View.{elem_of, escape_of, bounds_of};

use span_core::{ByteSet, is_name_byte, is_name_start};
use spanner_model::MOST_REPEATS;

/// What an escape, or an element of a class, stands for.
#[derive(Clone, Copy, Debug)]
pub(crate) enum Elem {
    Byte(u8),
    Kind(ByteSet),
}

impl Elem {
    pub(crate) fn set(&self) -> ByteSet
        ensures { result ≡ elem_set (elem_of self.now) }
    {
        match *self {
            Elem::Byte(b) => ByteSet::single(b),
            Elem::Kind(set) => set,
        }
    }
}

/// The numbers of a repeat, and how many bytes it takes with both braces.
#[derive(Clone, Copy, Debug)]
pub(crate) struct Bounds {
    pub(crate) least: u16,
    pub(crate) most: Option<u16>,
    pub(crate) len: usize,
}

fn digits() -> ByteSet
    ensures { result ≡ digits }
{
    ByteSet::range(b'0', b'9')
}

fn word_bytes() -> ByteSet
    ensures { result ≡ word_bytes }
{
    let capitals = digits().union(&ByteSet::range(b'A', b'Z'));
    let small = ByteSet::single(b'_').union(&ByteSet::range(b'a', b'z'));
    capitals.union(&small)
}

fn spaces() -> ByteSet
    ensures { result ≡ spaces }
{
    ByteSet::range(b'\t', b'\r').union(&ByteSet::single(b' '))
}

/// The byte that two hexadecimal digits write.
fn hex_byte(high: u8, low: u8) -> Option<u8>
    ensures { option_map (λ b. (byte b, 4)) result ≡ hex_byte (hex_value high) (hex_value low) }
{
    let mut bytes = [0u8];
    match hex::decode_to_slice([high, low], &mut bytes) {
        Ok(()) => Some(bytes[0]),
        Err(_) => None,
    }
}

fn is_punctuation(c: u8) -> bool
    ensures { result ≡ is_punctuation c }
{
    matches!(c, 33..=47 | 58..=64 | 91..=96 | 123..=126)
}

/// The escape after a backslash: what it stands for, and how many bytes it takes with the backslash.
pub(crate) fn escape_at(text: &[u8]) -> Option<(Elem, usize)>
    ensures { escape_of result ≡ escape_at text.now }
{
    match text {
        [b'd', ..] => Some((Elem::Kind(digits()), 2)),
        [b'w', ..] => Some((Elem::Kind(word_bytes()), 2)),
        [b's', ..] => Some((Elem::Kind(spaces()), 2)),
        [b'n', ..] => Some((Elem::Byte(b'\n'), 2)),
        [b't', ..] => Some((Elem::Byte(b'\t'), 2)),
        [b'r', ..] => Some((Elem::Byte(b'\r'), 2)),
        [b'x', high, low, ..] => Some((Elem::Byte(hex_byte(*high, *low)?), 4)),
        [c, ..] if is_punctuation(*c) => Some((Elem::Byte(*c), 2)),
        _ => None,
    }
}

/// Whether the text begins with this byte.
pub(crate) fn begins_with(text: &[u8], byte: u8) -> bool
    ensures { result ≡ begins_with byte text.now }
{
    match text {
        [c, ..] => *c == byte,
        [] => false,
    }
}

/// The name bytes at the front.
fn name_run_len(text: &[u8]) -> usize
    ensures value { result ≡ length (take_while is_name_byte text.now) }
    ensures within { result ≤ length text.now }
{
    text.iter().take_while(|c| is_name_byte(**c)).count()
}

#[tactic(auto, using(crate::proofs::RunLaws::take_run))]
pub(crate) fn name_run(text: &[u8]) -> &[u8]
    ensures { result.now ≡ take_while is_name_byte text.now }
{
    let (run, _) = text.split_at(name_run_len(text));
    run
}

fn all_name_bytes(text: &[u8]) -> bool
    ensures { result ≡ list_all is_name_byte text.now }
{
    text.iter().all(|c| is_name_byte(*c))
}

fn is_word(word: &[u8]) -> bool
    ensures { result ≡ is_word word.now }
{
    match word.split_first() {
        Some((first, others)) => is_name_start(*first) && all_name_bytes(others),
        None => false,
    }
}

fn is_head(word: &[u8], after: &[u8]) -> bool
    ensures { result ≡ (is_word word.now && begins_with 123 after.now) }
{
    is_word(word) && begins_with(after, b'{')
}

/// The word after a `!` that begins a capture.
#[tactic(auto, unfolding(crate::specs::Tokens::head_at))]
pub(crate) fn head_at(text: &[u8]) -> Option<&[u8]>
    ensures { option_map (λ word. word.now) result ≡ head_at text.now }
{
    let word = name_run(text);
    let (_, after) = text.split_at(word.len());
    if is_head(word, after) {
        Some(word)
    } else {
        None
    }
}

/// The digits at the front.
fn digit_run_len(text: &[u8]) -> usize
    ensures value { result ≡ length (take_while is_digit text.now) }
    ensures within { result ≤ length text.now }
{
    text.iter().take_while(|c| is_digit(**c)).count()
}

#[tactic(auto, using(crate::proofs::RunLaws::take_run))]
fn digit_run(text: &[u8]) -> &[u8]
    ensures { result.now ≡ take_while is_digit text.now }
{
    let (run, _) = text.split_at(digit_run_len(text));
    run
}

fn is_digit(c: u8) -> bool
    ensures { result ≡ is_digit c }
{
    matches!(c, b'0'..=b'9')
}

fn digit(c: u8) -> u32
    ensures value { result ≡ c - 48 }
    ensures small { result < 256 }
{
    u32::from(c.saturating_sub(b'0'))
}

/// What one to four digits write.
fn value_of(digits: &[u8]) -> Option<u32>
    ensures { result
        ≡ (if nat_le 1 (length digits.now) && nat_le (length digits.now) 4 then Some (value_after 0 digits.now) else None) }
{
    match digits {
        [a] => Some(digit(*a)),
        [a, b] => Some(10 * digit(*a) + digit(*b)),
        [a, b, c] => Some(10 * (10 * digit(*a) + digit(*b)) + digit(*c)),
        [a, b, c, d] => Some(10 * (10 * (10 * digit(*a) + digit(*b)) + digit(*c)) + digit(*d)),
        _ => None,
    }
}

/// A number of a repeat, and how many bytes it takes.
#[tactic(auto, unfolding(crate::specs::Tokens::number_at))]
fn number_at(text: &[u8]) -> Option<(u16, usize)>
    ensures value { result ≡ number_at text.now }
    ensures within { IfSome result (λ x. (x.1 ≤ 4) × (x.1 ≤ length text.now)) }
{
    let digits = digit_run(text);
    match value_of(digits) {
        Some(value) if value <= u32::from(MOST_REPEATS) => Some((value as u16, digits.len())),
        _ => None,
    }
}

/// The repeat `{m,k}`, by what follows its comma.
fn between_at(least: u16, len: usize, text: &[u8]) -> Option<Bounds>
    requires { len ≤ 4 }
    ensures { bounds_of result ≡ between_at least len (number_at text.now) text.now }
{
    let (most, more) = number_at(text)?;
    let (_, after) = text.split_at(more);
    if least <= most && begins_with(after, b'}') {
        let len = len + more + 3;
        Some(Bounds {
            least,
            most: Some(most),
            len,
        })
    } else {
        None
    }
}

/// The repeat `{m,}` or `{m,k}`, by what follows its comma.
fn most_at(least: u16, len: usize, text: &[u8]) -> Option<Bounds>
    requires { len ≤ 4 }
    ensures { bounds_of result ≡ most_at least len text.now }
{
    match text {
        [] => None,
        [b'}', ..] => Some(Bounds {
            least,
            most: None,
            len: len + 3,
        }),
        _ => between_at(least, len, text),
    }
}

/// The repeat in braces, by what follows its first number.
fn rest_at(least: u16, len: usize, text: &[u8]) -> Option<Bounds>
    requires { len ≤ 4 }
    ensures { bounds_of result ≡ rest_at least len text.now }
{
    match text {
        [b'}', ..] => Some(Bounds {
            least,
            most: Some(least),
            len: len + 2,
        }),
        [b',', others @ ..] => most_at(least, len, others),
        _ => None,
    }
}

/// The repeat in braces, by what follows its `{`.
pub(crate) fn bounds_at(text: &[u8]) -> Option<Bounds>
    ensures { bounds_of result ≡ bounds_at text.now }
{
    let (least, len) = number_at(text)?;
    let (_, rest) = text.split_at(len);
    rest_at(least, len, rest)
}

fn is_tail(c: u8) -> bool
    ensures { result ≡ is_tail c }
{
    matches!(c, 128..=191)
}

fn tails_len(text: &[u8]) -> usize
    ensures value { result ≡ length (tails text.now) }
    ensures within { result ≤ length text.now }
{
    text.iter().take_while(|c| is_tail(**c)).count()
}

/// The bytes of 80 to BF at the front.
#[tactic(auto, using(crate::proofs::RunLaws::take_run))]
pub(crate) fn tails(text: &[u8]) -> &[u8]
    ensures { result.now ≡ tails text.now }
{
    let (run, _) = text.split_at(tails_len(text));
    run
}
