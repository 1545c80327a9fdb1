//! What reads bytes on, and what takes them, each with a count of its faults.
ghost use Rattle.std.specs.Prelude.{◌≡◌, ◌≤◌, ◌<◌, length, IfOk};
ghost use Rattle.std.specs.Io.{ReadsAtMost};
ghost use Rattle.std.specs.Io.KnownBytes.{ReadConsumes, WriteAppends};
ghost use Rattle.rm_outside.specs.Flow.{Flow, flow};
ghost use Rattle.rm_outside.specs.Sink.{CountsErr};

use std::io;
use std::io::{ErrorKind, Read, Write};

/// What reads bytes on.
///
/// It alone counts its faults, so that whoever holds it can raise no count but by a read that fails.
pub trait Reads {
    /// The bytes that are left, where they are told, and a count of the failed reads.
    ghost told: { Self → Flow };

    /// Reads on, as the `read` of std's readers does.
    fn read(&mut self, buffer: &mut [u8]) -> io::Result<usize>
        ensures bound { ReadsAtMost result buffer.new }
        ensures bytes { ReadConsumes (told self.old).bytes (told self.new).bytes result buffer.new }
        ensures later { (told self.old).faults ≤ (told self.new).faults }
        ensures count { CountsErr (told self.old).faults (told self.new).faults result };
}

/// What takes bytes.
///
/// It alone counts its faults, so that whoever holds it can raise no count but by a write that fails.
pub trait Takes {
    /// The bytes that were taken, where they are told, and a count of the failed writes.
    ghost told: { Self → Flow };

    /// Takes some of the bytes, as the `write` of std's writers does, but at least one. To take none is a fault.
    fn write(&mut self, bytes: &[u8]) -> io::Result<usize>
        requires some { 0 < length bytes.now }
        ensures bound { ReadsAtMost result bytes.now }
        ensures some { IfOk result (λ count. 0 < count) }
        ensures bytes { WriteAppends (told self.old).bytes (told self.new).bytes result bytes.now }
        ensures later { (told self.old).faults ≤ (told self.new).faults }
        ensures count { CountsErr (told self.old).faults (told self.new).faults result };
}

/// A reader or a writer of std, with a count of its faults.
///
/// The bodies of its `read` and `write` are trusted over the system's streams, of whose calls nothing is told: that they fail
/// only where the stream did.
#[derive(Drop)]
pub struct Counting<T> {
    pub(crate) of: T,
    pub(crate) faults: u64,
}

impl<T> Counting<T> {
    /// This stream, with no fault so far.
    pub fn new(of: T) -> Counting<T>
        ensures stream { result.of ≡ of }
        ensures faults { result.faults ≡ 0 }
    {
        Counting { of, faults: 0 }
    }
}

impl<R: Read> Reads for Counting<R> {
    ghost told = { λ s. flow (R.remaining s.of) s.faults };

    fn read(&mut self, buffer: &mut [u8]) -> io::Result<usize> {
        let result = self.of.read(buffer);
        if result.is_err() {
            self.faults = self.faults.saturating_add(1);
        }
        result
    }
}

#[tactic(auto, using(crate::proofs::Known::keeps_nothing))]
impl<W: Write> Takes for Counting<W> {
    ghost told = { λ s. flow (W.contents s.of) s.faults };

    fn write(&mut self, bytes: &[u8]) -> io::Result<usize> {
        match self.of.write(bytes) {
            Ok(0) => {
                self.faults = self.faults.saturating_add(1);
                Err(io::Error::from(ErrorKind::WriteZero))
            }
            Ok(count) => Ok(count),
            Err(error) => {
                self.faults = self.faults.saturating_add(1);
                Err(error)
            }
        }
    }
}
