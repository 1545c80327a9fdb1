//! A source over whatever reads bytes on.
ghost use Rattle.std.specs.Prelude.{◌≡◌, ◌≤◌, ◌<◌, ◌-◌, ◌+◌, ◌^◌, ℕ, List, Option, Ok, length, take, drop, IfOk, IfErr, OnErr, IsErrOf, vec_len};
ghost use Rattle.std.specs.Bool.{OnTrue, OnFalse};
ghost use Rattle.std.specs.Io.KnownBytes.{IsAtEnd, Keeps, prepend_known};
ghost use Rattle.rm_outside.specs.Faults.{Rose};
ghost use Rattle.rm_outside.specs.Flow.{flow};
ghost use Rattle.rm_outside.specs.Source.{AsksLine};
ghost use Rattle.rm_outside.specs.LineInput.{IsLineFault, IsPartFault, IsReadFault, TakesNext, TakesPart, left_of};
ghost use Rattle.rm_outside.specs.Reading.{ReadsOn};

use crate::lines::line_length;
use crate::{LineFault, Reads, Source};
use span_core::OutOfMemory;
use std::alloc::Global;

/// The most bytes that one read asks for.
const PIECE: usize = 65536;

/// A source of the lines of a reader. It fails where a read fails, and where a signal interrupts one. What is left is told
/// where the reader tells it; the system's streams do not. Its count of faults is the reader's, so that it never fails but by
/// a read that failed. The rest of a line that is longer than what was read ahead is read straight into the caller's vector.
#[derive(Drop)]
pub struct LineInput<R> {
    from: R,
    buffer: Vec<u8>,
    start: usize,
    end: usize,
    ghost order: { start ≤ end },
    ghost within: { end ≤ vec_len buffer },
    ghost room: { 0 < vec_len buffer },
}

impl<R: Reads + Drop> LineInput<R> {
    /// The lines of this reader.
    pub fn new(alloc: Global, from: R) -> Result<LineInput<R>, OutOfMemory>
        ensures left { IfOk result (λ s. left_of s.start s.end s.buffer.items (R.told s.from).bytes ≡ (R.told from).bytes) }

        // Nothing was read.
        ensures untouched { IfOk result (λ s. s.from ≡ from) }
    {
        let buffer = vec![in alloc; 0u8; PIECE]?;
        Ok(LineInput {
            from,
            buffer,
            start: 0,
            end: 0,
        })
    }
}

/// How many bytes of a line were taken, and whether its end was met behind them.
#[derive(Clone, Copy)]
struct Part {
    length: usize,
    ended: bool,
}

impl<R: Reads> LineInput<R> {
    /// Reads on, where all that was read is taken. False at the end.
    fn fill(&mut self) -> Result<bool, LineFault>
        ensures some { IfOk result (λ some. OnTrue some (self.new.start < self.new.end)) }
        ensures none { IfOk result (λ some. OnFalse some
            (IsAtEnd (left_of self.new.start self.new.end self.new.buffer.items (R.told self.new.from).bytes))) }
        ensures kept { Keeps (left_of self.old.start self.old.end self.old.buffer.items (R.told self.old.from).bytes)
            (left_of self.new.start self.new.end self.new.buffer.items (R.told self.new.from).bytes) }
        ensures fault { IfErr result (λ e. e ≡ LineFault.Failed) }
        ensures later { (R.told self.old.from).faults ≤ (R.told self.new.from).faults }
        ensures quiet { IfOk result (λ _. (R.told self.new.from).faults ≡ (R.told self.old.from).faults) }
        ensures failed { OnErr result (Rose (R.told self.old.from).faults (R.told self.new.from).faults) }
    {
        if self.start < self.end {
            return Ok(true);
        }
        match self.from.read(&mut self.buffer) {
            Ok(0) => Ok(false),
            Ok(count) => {
                self.start = 0;
                self.end = count;
                Ok(true)
            }
            Err(_) => Err(LineFault::Failed),
        }
    }

    /// Appends what was read of a line of which so many bytes are seen.
    fn take_part(
        &mut self,
        limit: usize,
        seen: usize,
        into: &mut Vec<u8>,
    ) -> Result<Part, LineFault>
        requires some { self.old.start < self.old.end }
        requires within { seen ≤ limit }
        requires seen { seen ≤ vec_len into.old }
        ensures part { IfOk result (λ p. TakesPart (limit - seen)
            (left_of self.old.start self.old.end self.old.buffer.items (R.told self.old.from).bytes)
            (left_of self.new.start self.new.end self.new.buffer.items (R.told self.new.from).bytes)
            into.old.items into.new.items p.length p.ended) }
        ensures fault { IfErr result (IsPartFault limit seen
            (left_of self.old.start self.old.end self.old.buffer.items (R.told self.old.from).bytes)) }
        ensures refused { OnErr result (into.new.items ≡ into.old.items) }
        ensures sound { ¬ IsErrOf result LineFault.Failed }
        ensures faults { (R.told self.new.from).faults ≡ (R.told self.old.from).faults }
    {
        let piece = &self.buffer[self.start..self.end];
        let length = line_length(piece);
        if length > limit - seen {
            return Err(LineFault::TooLong {
                seen: seen as u64 + length as u64,
            });
        }
        if into.extend_from_slice(&piece[..length]).is_err() {
            return Err(LineFault::OutOfMemory);
        }
        let at = self.start + length;
        if at < self.end {
            self.start = at + 1;
            return Ok(Part {
                length,
                ended: true,
            });
        }
        self.start = at;
        Ok(Part {
            length,
            ended: false,
        })
    }

    /// Cuts what one read gave, behind so many bytes, at the end of the line of which so many bytes are seen. What is behind
    /// that end is held.
    fn cut_part(
        &mut self,
        limit: usize,
        seen: usize,
        held: usize,
        into: &mut Vec<u8>,
    ) -> Result<Part, LineFault>
        requires within { seen ≤ limit }
        requires seen { seen ≤ held }
        requires some { held < vec_len into.old }
        requires room { vec_len into.old ≤ held + vec_len self.old.buffer }
        requires used { self.old.end ≤ self.old.start }
        ensures part { IfOk result (λ p. TakesPart (limit - seen)
            (prepend_known (drop held into.old.items) (R.told self.old.from).bytes)
            (left_of self.new.start self.new.end self.new.buffer.items (R.told self.new.from).bytes)
            (take held into.old.items) into.new.items p.length p.ended) }
        ensures fault { IfErr result (IsPartFault limit seen (prepend_known (drop held into.old.items) (R.told self.old.from).bytes)) }
        ensures refused { OnErr result (into.new.items ≡ into.old.items) }
        ensures sound { ¬ IsErrOf result LineFault.Failed }
        ensures faults { (R.told self.new.from).faults ≡ (R.told self.old.from).faults }
    {
        let piece = &into[held..];
        let length = line_length(piece);
        if length > limit - seen {
            return Err(LineFault::TooLong {
                seen: seen as u64 + length as u64,
            });
        }
        if length == piece.len() {
            return Ok(Part {
                length,
                ended: false,
            });
        }
        self.hold(&piece[length + 1..]);
        into.truncate(held + length);
        Ok(Part {
            length,
            ended: true,
        })
    }

    /// Holds these bytes as read and not yet taken.
    fn hold(&mut self, bytes: &[u8])
        requires { length bytes.now ≤ vec_len self.old.buffer }
        ensures held { take (self.new.end - self.new.start) (drop self.new.start self.new.buffer.items) ≡ bytes.now }
        ensures from { self.new.from ≡ self.old.from }
    {
        put_front(&mut self.buffer, bytes);
        self.start = 0;
        self.end = bytes.len();
    }

    /// Reads a part of a line of which so many bytes are seen straight into the vector, where all that was read before is
    /// taken. None at the end.
    fn read_part(
        &mut self,
        limit: usize,
        seen: usize,
        into: &mut Vec<u8>,
    ) -> Result<Option<Part>, LineFault>
        requires within { seen ≤ limit }
        requires seen { seen ≤ vec_len into.old }
        requires used { self.old.end ≤ self.old.start }
        ensures next { IfOk result (TakesNext (limit - seen)
            (left_of self.old.start self.old.end self.old.buffer.items (R.told self.old.from).bytes)
            (left_of self.new.start self.new.end self.new.buffer.items (R.told self.new.from).bytes)
            into.old.items into.new.items) }
        ensures fault { IfErr result (IsPartFault limit seen
            (left_of self.old.start self.old.end self.old.buffer.items (R.told self.old.from).bytes)) }
        ensures refused { OnErr result (take (vec_len into.old) into.new.items ≡ into.old.items) }
        ensures later { (R.told self.old.from).faults ≤ (R.told self.new.from).faults }
        ensures failed { IsErrOf result LineFault.Failed → Rose (R.told self.old.from).faults (R.told self.new.from).faults }
    {
        let held = into.len();
        match read_onto(&mut self.from, self.buffer.len(), into) {
            Ok(0) => return Ok(None),
            Ok(_) => {}
            Err(fault) => return Err(fault),
        }
        match self.cut_part(limit, seen, held, into) {
            Ok(part) => Ok(Some(part)),
            Err(fault) => Err(fault),
        }
    }

    /// Appends the next part of a line of which so many bytes are seen. None at the end.
    fn next_part(
        &mut self,
        limit: usize,
        seen: usize,
        into: &mut Vec<u8>,
    ) -> Result<Option<Part>, LineFault>
        requires within { seen ≤ limit }
        requires seen { seen ≤ vec_len into.old }
        ensures next { IfOk result (TakesNext (limit - seen)
            (left_of self.old.start self.old.end self.old.buffer.items (R.told self.old.from).bytes)
            (left_of self.new.start self.new.end self.new.buffer.items (R.told self.new.from).bytes)
            into.old.items into.new.items) }
        ensures fault { IfErr result (IsPartFault limit seen
            (left_of self.old.start self.old.end self.old.buffer.items (R.told self.old.from).bytes)) }
        ensures refused { OnErr result (take (vec_len into.old) into.new.items ≡ into.old.items) }
        ensures later { (R.told self.old.from).faults ≤ (R.told self.new.from).faults }
        ensures failed { IsErrOf result LineFault.Failed → Rose (R.told self.old.from).faults (R.told self.new.from).faults }
    {
        if seen > 0 && self.start == self.end {
            return self.read_part(limit, seen, into);
        }
        match self.fill() {
            Ok(true) => {}
            Ok(false) => return Ok(None),
            Err(fault) => return Err(fault),
        }
        match self.take_part(limit, seen, into) {
            Ok(part) => Ok(Some(part)),
            Err(fault) => Err(fault),
        }
    }

    /// Appends a line, or a part of it.
    fn take_line(&mut self, limit: usize, into: &mut Vec<u8>) -> Result<bool, LineFault>
        ensures line { IfOk result (λ some. AsksLine limit
            (left_of self.old.start self.old.end self.old.buffer.items (R.told self.old.from).bytes)
            (left_of self.new.start self.new.end self.new.buffer.items (R.told self.new.from).bytes)
            into.old.items into.new.items (Ok some)) }
        ensures fault { IfErr result (IsLineFault limit
            (left_of self.old.start self.old.end self.old.buffer.items (R.told self.old.from).bytes)) }
        ensures refused { OnErr result (take (vec_len into.old) into.new.items ≡ into.old.items) }
        ensures later { (R.told self.old.from).faults ≤ (R.told self.new.from).faults }
        ensures failed { IsErrOf result LineFault.Failed → Rose (R.told self.old.from).faults (R.told self.new.from).faults }
    {
        let mut seen = 0;
        loop {
            match self.next_part(limit, seen, into) {
                Ok(Some(part)) => {
                    seen += part.length;
                    if part.ended {
                        return Ok(true);
                    }
                }
                Ok(None) => return Ok(seen > 0),
                Err(fault) => return Err(fault),
            }
        }
    }
}

/// Puts these bytes in place of as many at the front.
fn put_front(buffer: &mut [u8], bytes: &[u8])
    requires { length bytes.now ≤ length buffer.old }
    ensures front { take (length bytes.now) buffer.new ≡ bytes.now }
    ensures len { length buffer.new ≡ length buffer.old }
{
    buffer[..bytes.len()].copy_from_slice(bytes);
}

/// Appends what one read gives, at most so many bytes; none only at the end.
fn read_onto<R: Reads>(from: &mut R, most: usize, into: &mut Vec<u8>) -> Result<usize, LineFault>
    requires some { 0 < most }
    requires small { most < 2 ^ 63 }
    ensures read { IfOk result (ReadsOn most (R.told from.old).bytes (R.told from.new).bytes into.old.items into.new.items) }
    ensures fault { IfErr result IsReadFault }
    ensures front { take (vec_len into.old) into.new.items ≡ into.old.items }
    ensures later { (R.told from.old).faults ≤ (R.told from.new).faults }
    ensures failed { IsErrOf result LineFault.Failed → Rose (R.told from.old).faults (R.told from.new).faults }
{
    let start = into.len();
    if into.resize(start + most, 0).is_err() {
        return Err(LineFault::OutOfMemory);
    }
    match from.read(&mut into.as_mut_slice()[start..]) {
        Ok(count) => {
            into.truncate(start + count);
            Ok(count)
        }
        Err(_) => Err(LineFault::Failed),
    }
}

impl<R: Reads> Source for LineInput<R> {
    ghost told = { λ s. flow (left_of s.start s.end s.buffer.items (R.told s.from).bytes) (R.told s.from).faults };

    fn line(&mut self, limit: usize, into: &mut Vec<u8>) -> Result<bool, LineFault> {
        let before = into.len();
        let result = self.take_line(limit, into);
        if result.is_err() {
            into.truncate(before);
        }
        result
    }
}

#[cfg(test)]
mod tests {
    use super::*;
    use crate::Counting;
    use std::io;
    use std::io::{ErrorKind, Read};
    use std::test::Fail;

    /// A reader that gives two bytes at a time, and fails once between.
    #[derive(Drop)]
    struct Halting<'a> {
        left: &'a [u8],
        turn: u8,
    }

    impl Read for Halting<'_> {
        fn read(&mut self, buf: &mut [u8]) -> io::Result<usize> {
            self.turn = self.turn.saturating_add(1);
            if self.turn == 3 || buf.len() < 2 {
                return Err(io::Error::from(ErrorKind::Other));
            }
            self.left.read(&mut buf[..2])
        }
    }

    /// A reader that gives 40,000 bytes at a time.
    #[derive(Drop)]
    struct Pieces<'a> {
        left: &'a [u8],
    }

    impl Read for Pieces<'_> {
        fn read(&mut self, buf: &mut [u8]) -> io::Result<usize> {
            let most = buf.len().min(40_000);
            self.left.read(&mut buf[..most])
        }
    }

    #[test]
    fn takes_a_line_of_many_pieces(rt: HostRuntime) -> Result<(), Fail> {
        let alloc = rt.alloc();
        let long = vec![in alloc; b'a'; 150_000]?;
        let mut text = long.clone()?;
        text.extend_from_slice(b"\nbc\n\nd")?;
        let mut lines = LineInput::new(alloc, Counting::new(Pieces { left: &text }))?;
        let mut into = Vec::new(alloc);
        assert_eq!(rt; lines.line(150_000, &mut into), Ok(true));
        assert_eq!(rt; into.as_slice(), long.as_slice());
        into.clear();
        assert_eq!(rt; lines.line(2, &mut into), Ok(true));
        assert_eq!(rt; into.as_slice(), b"bc".as_slice());
        assert_eq!(rt; lines.line(2, &mut into), Ok(true));
        assert_eq!(rt; lines.line(2, &mut into), Ok(true));
        assert_eq!(rt; into.as_slice(), b"bcd".as_slice());
        assert_eq!(rt; lines.line(2, &mut into), Ok(false));
        Ok(())
    }

    #[test]
    fn takes_lines_as_they_come(rt: HostRuntime) -> Result<(), Fail> {
        let alloc = rt.alloc();
        let reader = Halting {
            left: b"abcdefg\n\nhi\njkl",
            turn: 0,
        };
        let mut lines = LineInput::new(alloc, Counting::new(reader))?;
        let mut into = Vec::new(alloc);
        assert_eq!(rt; lines.line(9, &mut into), Err(LineFault::Failed));
        assert_eq!(rt; lines.from.faults, 1);
        assert_eq!(rt; into.len(), 0);
        assert_eq!(rt; lines.line(3, &mut into), Ok(true));
        assert_eq!(rt; into.as_slice(), b"efg".as_slice());
        assert_eq!(rt; lines.line(3, &mut into), Ok(true));
        assert_eq!(rt; lines.line(2, &mut into), Ok(true));
        assert_eq!(rt; into.as_slice(), b"efghi".as_slice());
        assert_eq!(rt;
            lines.line(2, &mut into),
            Err(LineFault::TooLong { seen: 3 })
        );
        assert_eq!(rt; into.as_slice(), b"efghi".as_slice());
        assert_eq!(rt; lines.from.faults, 1);
        Ok(())
    }
}
