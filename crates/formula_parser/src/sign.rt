//! The sign of a formula over characters.
ghost use Rattle.std.specs.Prelude.{◌≡◌, ◌+◌, ◌≤◌, ◌<◌, length, drop, IfSome};
ghost use Rattle.formula_parser.specs.Runs.{begins};
ghost use Rattle.formula_parser.specs.Signs.{is_sign, passed, closing_from, sign_in};
ghost use Rattle.span_core.specs.Names.{is_name_byte};

use span_core::is_name_byte;

/// How many bytes are passed on the way to the closing slash: none where it stands here, two where a pair
/// does. None where the text ends.
fn passed(rest: &[u8]) -> Option<usize>
    ensures { result ≡ passed rest.now }
{
    match rest {
        [] => None,
        [b'/', ..] => Some(0),
        [b'\\', _, ..] => Some(2),
        _ => Some(1),
    }
}

/// The place of the closing slash, in the text after the opening one. A backslash and the byte after it
/// are a pair, and no slash in a pair closes.
fn closing(text: &[u8]) -> Option<usize>
    ensures value { result ≡ closing_from 0 text.now }
    ensures within { IfSome result (λ k. k < length text.now) }
{
    let mut at = 0;
    loop {
        let (_, rest) = text.split_at(at);
        let Some(len) = passed(rest) else {
            return None;
        };
        if len == 0 {
            return Some(at);
        }
        at += len;
    }
}

fn begins_name_byte(text: &[u8]) -> bool
    ensures { result ≡ begins is_name_byte text.now }
{
    match text {
        [c, ..] => is_name_byte(*c),
        [] => false,
    }
}

/// Whether the text begins with the sign: a `u` that no letter, digit or `_` follows.
fn is_sign(text: &[u8]) -> bool
    ensures { result ≡ is_sign text.now }
{
    match text {
        [b'u', others @ ..] => !begins_name_byte(others),
        _ => false,
    }
}

/// How many bytes stand between the slash at `from` and its closing slash, where the sign follows that.
pub(crate) fn sign_len(text: &[u8], from: usize) -> Option<usize>
    requires { from < length text.now }
    ensures value { result ≡ sign_in (drop (from + 1) text.now) }
    ensures within { IfSome result (λ k. from + 1 + k < length text.now) }
{
    let (_, rest) = text.split_at(from + 1);
    let Some(len) = closing(rest) else {
        return None;
    };
    let (_, after) = rest.split_at(len + 1);
    if is_sign(after) { Some(len) } else { None }
}
