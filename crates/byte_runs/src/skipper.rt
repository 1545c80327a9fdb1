//! Searching for the end of a run.
ghost use Rattle.std.specs.Prelude.{◌≡◌, ℕ, ◌+◌, ◌<◌, ◌≤◌, not, false, length, IsTrue, MatchOption};
ghost use Rattle.memchr.specs.Find.{IsFirstByte, Nowhere, Passes};
ghost use Rattle.span_core.specs.ByteSets.{bytes_between};
ghost use Rattle.byte_runs.specs.Runs.{AreLeaving, AreMarked, HaveSameBytes, is_marked, is_outside};
ghost use Rattle.byte_runs.specs.declared.skipper.TheConstants.{BYTES, TURN};

use memchr::{memchr, memchr2, memchr3};
use span_core::ByteSet;
use std::marker::Model;

/// The bytes that are gone through one by one before a run of a set that is not prepared counts as long.
const SHORT: usize = 64;

/// How many bytes there are.
const BYTES: usize = 256;

/// So many bytes are looked at in one turn.
const TURN: usize = 8;

/// The bytes that are not in a set, where they are few.
#[derive(Clone, Copy)]
pub(crate) enum Leaving {
    None,
    One(u8),
    Two(u8, u8),
    Three(u8, u8, u8),
    Many,
}

/// Finds where runs of bytes end, and keeps what it worked out for the last set that had a long run, which is what
/// it is seen as.
#[derive(Drop)]
pub struct Skipper {
    set: ByteSet,
    leaving: Leaving,
    /// Of each byte, whether it is not in the set.
    outside: [bool; BYTES],
}

impl Model for Skipper {
    ghost use Rattle.std.specs.Ordering.{nat_cmp};
    ghost use Rattle.std.specs.Coded.{coded_ℕ};
    ghost use Rattle.std.specs.FinSet as bytes;
    ghost use Rattle.byte_runs.specs.Runs.{AreLeaving, AreMarked};

    ghost Value = { bytes.FinSet nat_cmp };

    ghost coded = { bytes.code coded_ℕ };

    ghost view = { λ s. s.set };

    ghost invariant = { λ s. AreLeaving s.set s.leaving × AreMarked s.set s.outside };
}

impl Skipper {
    /// One that has worked out nothing.
    pub fn new() -> Skipper
        ensures { result ≡ bytes_between 0 255 }
    {
        Skipper {
            set: ByteSet::all(),
            leaving: Leaving::None,
            outside: no_marks(),
        }
    }

    /// The first place of a byte that is not in the set; None where each is. A place is an index from 0.
    #[inline(always)]
    pub fn first_outside(&mut self, set: &ByteSet, bytes: &[u8]) -> Option<usize>
        ensures { IsFirstByte (is_outside set.now) bytes.now result }
    {
        if are_equal(&self.set, set) {
            self.search(bytes)
        } else {
            self.first_outside_new(set, bytes)
        }
    }

    /// The first place of a byte that is not in a set that was not prepared. It is prepared where the run is long.
    #[inline(never)]
    fn first_outside_new(&mut self, set: &ByteSet, bytes: &[u8]) -> Option<usize>
        ensures { IsFirstByte (is_outside set.now) bytes.now result }
    {
        let head = bytes.len().min(SHORT);
        for place in 0..head {
            if !set.contains(bytes[place]) {
                return Some(place);
            }
        }
        if head == bytes.len() {
            return None;
        }
        self.prepare(set);
        let found = self.search(&bytes[head..])?;
        Some(head + found)
    }

    /// Works out what ends a run of this set.
    fn prepare(&mut self, set: &ByteSet)
        ensures { HaveSameBytes self.new set.now }
    {
        self.leaving = leaving_of(set);
        self.outside = outside_of(set);
        self.set = *set;
    }

    /// The first place of a byte that is not in the set that was prepared.
    fn search(&self, bytes: &[u8]) -> Option<usize>
        ensures { IsFirstByte (is_outside self.now) bytes.now result }
    {
        match self.leaving {
            Leaving::None => None,
            Leaving::One(a) => memchr(a, bytes),
            Leaving::Two(a, b) => memchr2(a, b, bytes),
            Leaving::Three(a, b, c) => memchr3(a, b, c, bytes),
            Leaving::Many => first_marked(&self.outside, bytes),
        }
    }
}

/// Whether the sets have the same bytes.
#[inline(always)]
fn are_equal(a: &ByteSet, b: &ByteSet) -> bool
    ensures { IsTrue result → HaveSameBytes a.now b.now }
{
    a.meet(&b.negation()).is_empty() && b.meet(&a.negation()).is_empty()
}

/// The bytes that are not in the set.
fn leaving_of(set: &ByteSet) -> Leaving
    ensures { AreLeaving set.now result }
{
    let mut leaving = Leaving::None;
    for number in 0..256u32 {
        let byte = number as u8;
        if !set.contains(byte) {
            leaving = match leaving {
                Leaving::None => Leaving::One(byte),
                Leaving::One(a) => Leaving::Two(a, byte),
                Leaving::Two(a, b) => Leaving::Three(a, b, byte),
                Leaving::Three(..) | Leaving::Many => return Leaving::Many,
            };
        }
    }
    leaving
}

/// No byte is marked.
fn no_marks() -> [bool; BYTES]
    ensures { (b : ℕ) → b < BYTES → is_marked result b ≡ false }
{
    [false; BYTES]
}

/// Of each byte, whether it is not in the set.
fn outside_of(set: &ByteSet) -> [bool; BYTES]
    ensures { AreMarked set.now result }
{
    let mut outside = no_marks();
    for byte in 0..BYTES {
        outside[byte] = !set.contains(byte as u8);
    }
    outside
}

/// The first place of a byte that is marked: eight bytes are looked at in one turn, and where one of them is marked, and
/// at the end, each by itself.
fn first_marked(marks: &[bool; BYTES], bytes: &[u8]) -> Option<usize>
    ensures { IsFirstByte (is_marked marks.now) bytes.now result }
{
    let mut place = 0;
    while bytes.len() - place >= TURN && !any_marked(marks, bytes, place) {
        place += TURN;
    }
    while place < bytes.len() {
        if marks[bytes[place] as usize] {
            return Some(place);
        }
        place += 1;
    }
    None
}

/// Whether one of the eight bytes from a place on may be marked.
#[inline(always)]
fn any_marked(marks: &[bool; BYTES], bytes: &[u8], place: usize) -> bool
    requires { place + TURN ≤ length bytes.now }
    ensures { result ≡ false → Nowhere (Passes (is_marked marks.now) bytes.now) place (place + TURN) }
{
    marks[bytes[place] as usize]
        | marks[bytes[place + 1] as usize]
        | marks[bytes[place + 2] as usize]
        | marks[bytes[place + 3] as usize]
        | marks[bytes[place + 4] as usize]
        | marks[bytes[place + 5] as usize]
        | marks[bytes[place + 6] as usize]
        | marks[bytes[place + 7] as usize]
}
