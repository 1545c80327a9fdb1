//! Searching for a text, and back to the last byte of a set before it.
//!
//! The text is searched for (memchr's `memmem`). Before its last byte the text ends nowhere; from there the search goes back
//! to where a byte of the set stands just before.
ghost use Rattle.std.specs.Prelude.{◌≡◌, ℕ, ◌<◌, ◌≤◌, length, IfOk, IfSome};
ghost use Rattle.byte_runs.specs.Inner.{EndsNowhere, IsBehind};

use memchr::memmem::Finder;
use span_core::ByteSet;
use std::alloc::{AllocError, Global};
use std::marker::Model;

/// A shorter text is not searched for.
const LEAST_TEXT: usize = 3;

/// Over so many bytes at most a search goes back.
const MOST_BACK: usize = 1_024;

/// A text and a set of bytes that kill, which is what it is seen as: what is under way when one of these bytes stands there is
/// no more, and nothing comes through but behind the text.
#[derive(Drop)]
pub struct InnerText {
    text: Finder<'static>,
    kills: ByteSet,
}

impl Model for InnerText {
    ghost use Rattle.std.specs.Prelude.{◌<◌, length};
    ghost use Rattle.byte_runs.specs.Inner.{Inner, inner_code};

    ghost Value = { Inner };

    ghost coded = { inner_code };

    ghost view = { λ t. record { text = t.text; kills = t.kills } };

    ghost invariant = { λ t. 0 < length t.text };
}

impl InnerText {
    /// A text and the bytes that kill. None where the text is too short, or memory runs out.
    pub fn new(alloc: Global, text: &[u8], kills: &ByteSet) -> Option<InnerText>
        ensures text { IfSome result (λ t. t.text ≡ text.now) }
        ensures kills { IfSome result (λ t. t.kills ≡ kills.now) }
    {
        if text.len() < LEAST_TEXT {
            return None;
        }
        match Finder::new(text).into_owned(alloc) {
            Ok(text) => Some(InnerText {
                text,
                kills: *kills,
            }),
            Err(AllocError) => None,
        }
    }

    /// A place up to which the text ends nowhere, behind a byte that kills; or the first place.
    pub fn next_place(&self, bytes: &[u8]) -> usize
        ensures within { result ≤ length bytes.now }
        ensures nowhere { EndsNowhere self.now.text bytes.now result }
        ensures behind { IsBehind self.now.kills bytes.now result }
    {
        let end = first_end(&self.text, bytes);
        last_behind(&self.kills, bytes, end)
    }
}

/// The place of the last byte of the text where it first stands, or the end.
fn first_end(text: &Finder<'static>, bytes: &[u8]) -> usize
    requires { 0 < length text.now }
    ensures within { result ≤ length bytes.now }
    ensures nowhere { EndsNowhere text.now bytes.now result }
{
    match text.find(bytes) {
        Some(found) => found + (text.needle().len() - 1),
        None => bytes.len(),
    }
}

/// The last place, near before one or this, behind a byte of the set; or the first place.
fn last_behind(set: &ByteSet, bytes: &[u8], place: usize) -> usize
    requires { place ≤ length bytes.now }
    ensures within { result ≤ place }
    ensures behind { IsBehind set.now bytes.now result }
{
    let mut at = place;
    for _ in 0..MOST_BACK {
        if at == 0 {
            return 0;
        }
        if set.contains(bytes[at - 1]) {
            return at;
        }
        at -= 1;
    }
    0
}
