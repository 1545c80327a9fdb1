//! Searching for a place from which bytes keep to sets in turn.
//!
//! Some of the sets that follow one another have one byte alone: the longest such text is searched for (memchr's
//! `memmem`), and where it stands the bytes before and behind it are looked at. Last the search goes back to where nothing
//! is under way: behind that no place has been passed over from which the bytes still keep to the sets.
ghost use Rattle.std.specs.Prelude.{◌≡◌, ℕ, ◌+◌, ◌<◌, ◌≤◌, List, None, false, length, IfOk, IfSome, IsTrue};
ghost use Rattle.std.specs.FinSet as bytes;
ghost use Rattle.std.specs.Ordering.{nat_cmp};
ghost use Rattle.byte_runs.specs.Chains.{AreLeftBy, AreLevelsOf, IsLevelOf, IsTextOf, KeepTo};
ghost use Rattle.byte_runs.specs.Searches.{IsLadderOf, IsSearchOf};

use memchr::memmem::Finder;
use regex_literal::Ladder;
use span_core::ByteSet;
use std::alloc::{AllocError, Global};
use std::marker::Model;

/// A shorter text is not searched for.
const LEAST_TEXT: usize = 2;

/// A text of so many bytes is searched for at once.
const LONG_TEXT: usize = 3;

/// At so many of a million places a search by sets may stop, as far as is expected.
const MOST_STOPS: u64 = 20_000;

/// At so many places the text may stand, and what is beside it not, before a search gives up.
const MOST_FALSE: usize = 64;

/// So often a search goes back over what is under way before it gives up.
const MOST_BACK: usize = 32;

/// How many bytes there are.
const BYTES: usize = 256;

/// How the places are searched for from which bytes may keep to the sets.
#[derive(Drop)]
pub(crate) enum Search {
    /// By a text that stands there, so many bytes on.
    Text(Finder<'static>, usize),
    /// By the sets.
    Sets(Ladder),
}

/// Sets of bytes in turn, which is what it is seen as, and a search for where bytes may keep to them.
#[derive(Drop)]
pub struct Chain {
    sets: Vec<ByteSet>,
    search: Search,
}

impl Model for Chain {
    ghost use Rattle.std.specs.Prelude.{List};
    ghost use Rattle.std.specs.Ordering.{nat_cmp};
    ghost use Rattle.std.specs.FinSet as bytes;
    ghost use Rattle.byte_runs.specs.Searches.{IsSearchOf};
    ghost use Rattle.std.specs.Coded.{coded_list, coded_ℕ};

    ghost Value = { List (bytes.FinSet nat_cmp) };

    ghost coded = { coded_list (bytes.code coded_ℕ) };

    ghost view = { λ c. c.sets.items };

    ghost invariant = { λ c. IsSearchOf c.sets.items c.search };
}

impl Chain {
    /// The chain of these sets. None where there is no search for it, or memory runs out.
    pub fn new(alloc: Global, sets: Vec<ByteSet>) -> Option<Chain>
        ensures { IfSome result (λ c. c ≡ sets.items) }
    {
        match search_of(alloc, sets.as_slice()) {
            Some(search) => Some(Chain { sets, search }),
            None => None,
        }
    }

    /// A place from which the bytes keep to the sets, or where the search gave up; or, where from a place before it they
    /// keep to them up to here, that place, so that all before is decided.
    pub fn next_place(&self, bytes: &[u8]) -> usize
        ensures within { result ≤ length bytes.now }
        ensures left { AreLeftBy self.now bytes.now result }
    {
        let place = first_kept(self.sets.as_slice(), &self.search, bytes);
        settled(self.sets.as_slice(), bytes, place)
    }
}

/// A search for sets in turn: by a long text, or by the sets, or by a short text.
fn search_of(alloc: Global, sets: &[ByteSet]) -> Option<Search>
    ensures { IfSome result (IsSearchOf sets.now) }
{
    let offset = longest_text(sets);
    let text = match text_at(alloc, sets, offset) {
        Ok(text) => text,
        Err(AllocError) => return None,
    };
    if text.len() < LONG_TEXT {
        if let Some(ladder) = ladder_of(alloc, sets) {
            return Some(Search::Sets(ladder));
        }
    }
    if text.len() < LEAST_TEXT {
        return None;
    }
    match Finder::new(text.as_slice()).into_owned(alloc) {
        Ok(text) => Some(Search::Text(text, offset)),
        Err(AllocError) => None,
    }
}

/// A search by the sets, where it does not stop too often.
fn ladder_of(alloc: Global, sets: &[ByteSet]) -> Option<Ladder>
    ensures { IfSome result (IsLadderOf sets.now) }
{
    let levels = match levels_of(alloc, sets) {
        Ok(levels) => levels,
        Err(AllocError) => return None,
    };
    let ladder = match Ladder::new(levels.as_slice(), &[false; BYTES]) {
        Some(ladder) => ladder,
        None => return None,
    };
    if ladder.candidates_per_million() > MOST_STOPS {
        return None;
    }
    Some(ladder)
}

/// For each set, of each byte whether it is in it.
fn levels_of(alloc: Global, sets: &[ByteSet]) -> Result<Vec<[bool; BYTES]>, AllocError>
    ensures { IfOk result (λ levels. AreLevelsOf sets.now levels.items) }
{
    let mut levels = Vec::new(alloc);
    for set in sets {
        levels.push(inside_of(set))?;
    }
    Ok(levels)
}

/// Of each byte, whether it is in the set.
fn inside_of(set: &ByteSet) -> [bool; BYTES]
    ensures { IsLevelOf set.now result }
{
    let mut inside = [false; BYTES];
    for byte in 0..BYTES {
        inside[byte] = set.contains(byte as u8);
    }
    inside
}

/// The one byte of a set that has no other.
fn only_byte(set: &ByteSet) -> Option<u8>
    ensures { IfSome result (λ b. (x : ℕ) → IsTrue (bytes.contains set.now x) → x ≡ b) }
{
    for number in 0..BYTES {
        let byte = number as u8;
        let others = set.without(&ByteSet::single(byte));
        if others.is_empty() {
            return Some(byte);
        }
    }
    None
}

/// For how many sets from one on each has one byte alone.
fn run_of(sets: &[ByteSet], from: usize) -> usize {
    let mut k = from;
    while k < sets.len() {
        if only_byte(&sets[k]).is_none() {
            return k - from;
        }
        k += 1;
    }
    k - from
}

/// The number of the set with which the longest text begins.
fn longest_text(sets: &[ByteSet]) -> usize {
    let mut best = 0;
    let mut most = 0;
    for k in 0..sets.len() {
        let count = run_of(sets, k);
        if count > most {
            best = k;
            most = count;
        }
    }
    best
}

/// The text of the sets from one on that have one byte alone.
fn text_at(alloc: Global, sets: &[ByteSet], offset: usize) -> Result<Vec<u8>, AllocError>
    ensures { IfOk result (λ text. 0 < length text.items → IsTextOf sets.now offset text.items) }
{
    let mut text = Vec::new(alloc);
    let mut k = offset;
    while k < sets.len() {
        let byte = match only_byte(&sets[k]) {
            Some(byte) => byte,
            None => return Ok(text),
        };
        text.push(byte)?;
        k += 1;
    }
    Ok(text)
}

/// Whether the bytes from a place on, up to another, are in the sets in turn, as far as both go.
fn keep_to(sets: &[ByteSet], bytes: &[u8], from: usize, to: usize) -> bool
    requires order { from ≤ to }
    requires within { to ≤ length bytes.now }
    ensures { result ≡ false → ¬ KeepTo sets.now bytes.now from to }
{
    for (k, set) in sets.iter().enumerate() {
        if k >= to - from {
            return true;
        }
        if !set.contains(bytes[from + k]) {
            return false;
        }
    }
    true
}

/// A place near before this one from which the bytes keep to the sets up to here.
fn under_way(sets: &[ByteSet], bytes: &[u8], place: usize) -> Option<usize>
    requires { place ≤ length bytes.now }
    ensures earlier { IfSome result (λ j. j < place) }
    ensures none { result ≡ None → (j : ℕ) → j < place → place ≤ j + length sets.now → ¬ KeepTo sets.now bytes.now j place }
{
    let first = if place > sets.len() {
        place - sets.len()
    } else {
        0
    };
    for j in first..place {
        if keep_to(sets, bytes, j, place) {
            return Some(j);
        }
    }
    None
}

/// The last place, up to this one, at which nothing is under way that began near before; the first where that is far.
fn settled(sets: &[ByteSet], bytes: &[u8], place: usize) -> usize
    requires { place ≤ length bytes.now }
    ensures within { result ≤ place }
    ensures settled { (j : ℕ) → j < result → result ≤ j + length sets.now → ¬ KeepTo sets.now bytes.now j result }
{
    let mut at = place;
    for _ in 0..MOST_BACK {
        match under_way(sets, bytes, at) {
            Some(earlier) => at = earlier,
            None => return at,
        }
    }
    0
}

/// The first place from which the bytes keep to the sets, as far as both go, or the end; or the place at which the search
/// gave up. From none before do they keep to all sets.
fn first_kept(sets: &[ByteSet], search: &Search, bytes: &[u8]) -> usize
    requires { IsSearchOf sets.now search.now }
    ensures within { result ≤ length bytes.now }
    ensures none { (j : ℕ) → j < result → j + length sets.now ≤ length bytes.now → ¬ KeepTo sets.now bytes.now j (j + length sets.now) }
{
    let mut place = 0;
    for _ in 0..MOST_FALSE {
        place = next_stop(sets, search, bytes, place);
        if place == bytes.len() {
            return place;
        }
        if keep_to(sets, bytes, place, bytes.len()) {
            return place;
        }
        place += 1;
    }
    place
}

/// The next place, from one on, at which a search stops, or the end.
#[inline(always)]
fn next_stop(sets: &[ByteSet], search: &Search, bytes: &[u8], place: usize) -> usize
    requires search { IsSearchOf sets.now search.now }
    requires place { place ≤ length bytes.now }
    ensures later { place ≤ result }
    ensures within { result ≤ length bytes.now }
    ensures none { (j : ℕ) → place ≤ j → j < result → j + length sets.now ≤ length bytes.now →
        ¬ KeepTo sets.now bytes.now j (j + length sets.now) }
{
    match search {
        Search::Text(text, offset) => next_text(sets, text, *offset, bytes, place),
        Search::Sets(ladder) => next_step(sets, ladder, bytes, place),
    }
}

/// As `next_stop`, by a text.
fn next_text(
    sets: &[ByteSet],
    text: &Finder<'static>,
    offset: usize,
    bytes: &[u8],
    place: usize,
) -> usize
    requires text { IsTextOf sets.now offset text.now }
    requires place { place ≤ length bytes.now }
    ensures later { place ≤ result }
    ensures within { result ≤ length bytes.now }
    ensures none { (j : ℕ) → place ≤ j → j < result → j + length sets.now ≤ length bytes.now →
        ¬ KeepTo sets.now bytes.now j (j + length sets.now) }
{
    if offset > bytes.len() - place {
        return bytes.len();
    }
    let (_, rest) = bytes.split_at(place + offset);
    match text.find(rest) {
        Some(found) => place + found,
        None => bytes.len(),
    }
}

/// As `next_stop`, by the sets.
fn next_step(sets: &[ByteSet], ladder: &Ladder, bytes: &[u8], place: usize) -> usize
    requires ladder { IsLadderOf sets.now ladder.now }
    requires place { place ≤ length bytes.now }
    ensures later { place ≤ result }
    ensures within { result ≤ length bytes.now }
    ensures none { (j : ℕ) → place ≤ j → j < result → j + length sets.now ≤ length bytes.now →
        ¬ KeepTo sets.now bytes.now j (j + length sets.now) }
{
    match ladder.find(bytes, place) {
        Some(at) => at,
        None => bytes.len(),
    }
}
