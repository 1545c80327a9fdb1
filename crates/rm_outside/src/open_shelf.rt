//! A shelf over whatever opens names.
ghost use Rattle.std.specs.Prelude.{◌≡◌, ◌≤◌, ◌<◌, ◌+◌, ◌++◌, ℕ, List, [], ◌∷◌, None, Some, OnOk, OnErr, IfOk, IfSome, IsErrOf, length, take, vec_len, vec_capacity};
ghost use Rattle.rm_outside.specs.Faults.{Rose};
ghost use Rattle.rm_outside.specs.Shelf.{Gains, SeenPast, ByLength, CountsFailure};
ghost use Rattle.rm_outside.specs.Sink.{CountsErr};
ghost use Rattle.rm_outside.specs.Told.{GrewBy, counts_alone};
ghost use Rattle.rm_outside.specs.Reading.{ReadsOn};

use crate::opens::Opens;
use crate::{FetchFault, Shelf};
use std::io;

/// The most bytes that one read asks for.
const PIECE: usize = 65536;

/// A shelf whose names are opened, and then read to their end.
///
/// What it tells is what the opener tells: its count of faults is the opener's, so that no fetch fails
/// but by a call of the opener that failed, and a fetch opens its name once.
#[derive(Drop)]
pub struct OpenShelf<O> {
    pub(crate) opens: O,
}

impl<O: Opens> OpenShelf<O> {
    /// The shelf of what this opener opens.
    pub fn over(opens: O) -> OpenShelf<O>
        ensures { result.opens ≡ opens }
    {
        OpenShelf { opens }
    }
}

impl<O: Opens> Shelf for OpenShelf<O> {
    ghost told = { λ s. O.told s.opens };

    fn fetch(&mut self, name: &str, limit: u64, into: &mut Vec<u8>) -> Result<(), FetchFault>
        ensures gains { OnOk result (Gains limit into.old.items into.new.items) }
        ensures whole { OnOk result (IfSome ((O.told self.old.opens).held name.now) (λ bytes. into.new.items ≡ into.old.items ++ bytes)) }
        ensures refused { OnErr result (into.new.items ≡ into.old.items) }
        ensures seen { SeenPast limit result }
        ensures by_length { IfSome ((O.told self.old.opens).held name.now) (λ bytes. ByLength limit (length bytes) result) }
        ensures kept { (O.told self.new.opens).held ≡ (O.told self.old.opens).held }
        ensures later { (n : List ℕ) → (O.told self.old.opens).faults n ≤ (O.told self.new.opens).faults n }
        ensures failed { IsErrOf result FetchFault.Failed →
            Rose ((O.told self.old.opens).faults name.now) ((O.told self.new.opens).faults name.now) }
        ensures fetched { GrewBy (name.now ∷ []) (O.told self.old.opens).fetched (O.told self.new.opens).fetched }

        // The name's count rises at a failure alone.
        ensures count { CountsFailure ((O.told self.old.opens).faults name.now) ((O.told self.new.opens).faults name.now) result }
    {
        match self.opens.open(name) {
            Ok(mut opened) => read_whole(&mut self.opens, name, &mut opened, limit, into),
            Err(_) => Err(FetchFault::Failed),
        }
    }
}

// Appends all that is left in what the name was opened to, or nothing.
fn read_whole<O: Opens>(
    opens: &mut O,
    name: &str,
    opened: &mut O::Opened,
    limit: u64,
    into: &mut Vec<u8>,
) -> Result<(), FetchFault>
    ensures gains { OnOk result (Gains limit into.old.items into.new.items) }
    ensures whole { OnOk result (IfSome (O.Opened.remaining opened.old) (λ bytes. into.new.items ≡ into.old.items ++ bytes)) }
    ensures refused { OnErr result (into.new.items ≡ into.old.items) }
    ensures seen { SeenPast limit result }
    ensures by_length { IfSome (O.Opened.remaining opened.old) (λ bytes. ByLength limit (length bytes) result) }
    ensures kept { (O.told opens.new).held ≡ (O.told opens.old).held }
    ensures later { (n : List ℕ) → (O.told opens.old).faults n ≤ (O.told opens.new).faults n }
    ensures count { CountsFailure ((O.told opens.old).faults name.now) ((O.told opens.new).faults name.now) result }
    ensures no_other { (O.told opens.new).fetched ≡ (O.told opens.old).fetched }
{
    let start = into.len();
    make_room(opens.size_hint(opened).min(limit), into);
    let result = read_pieces(opens, name, opened, limit, into);
    if result.is_err() {
        into.truncate(start);
    }
    result
}

// Makes room for so many bytes more, if there is memory for them.
fn make_room(bytes: u64, into: &mut Vec<u8>)
    ensures { into.new.items ≡ into.old.items }
{
    let _is_made = into.reserve(bytes as usize).is_ok();
}

// Appends all that is left, or a part of it. A read of no bytes is the end.
fn read_pieces<O: Opens>(
    opens: &mut O,
    name: &str,
    opened: &mut O::Opened,
    limit: u64,
    into: &mut Vec<u8>,
) -> Result<(), FetchFault>
    ensures gains { OnOk result (Gains limit into.old.items into.new.items) }
    ensures whole { OnOk result (IfSome (O.Opened.remaining opened.old) (λ bytes. into.new.items ≡ into.old.items ++ bytes)) }
    ensures refused { OnErr result (take (vec_len into.old) into.new.items ≡ into.old.items) }
    ensures seen { SeenPast limit result }
    ensures by_length { IfSome (O.Opened.remaining opened.old) (λ bytes. ByLength limit (length bytes) result) }
    ensures kept { (O.told opens.new).held ≡ (O.told opens.old).held }
    ensures later { (n : List ℕ) → (O.told opens.old).faults n ≤ (O.told opens.new).faults n }
    ensures count { CountsFailure ((O.told opens.old).faults name.now) ((O.told opens.new).faults name.now) result }
    ensures no_other { (O.told opens.new).fetched ≡ (O.told opens.old).fetched }
{
    let mut buffer = [0u8; PIECE];
    let mut seen = 0u64;
    while seen <= limit {
        let most = (limit - seen).min(PIECE as u64 - 1) as usize + 1;
        match read_on(opens, name, opened, &mut buffer[..most], into) {
            Ok(Some(0)) => return Ok(()),
            Ok(Some(count)) => seen += count as u64,
            Ok(None) => return Err(FetchFault::OutOfMemory),
            Err(_) => return Err(FetchFault::Failed),
        }
    }
    Err(FetchFault::TooLong { seen })
}

// Appends what one read gives, at most as many bytes as the buffer has: it is read into the vector's own room, or where
// there is none into the buffer. None where there is no memory.
fn read_on<O: Opens>(
    opens: &mut O,
    name: &str,
    opened: &mut O::Opened,
    buffer: &mut [u8],
    into: &mut Vec<u8>,
) -> io::Result<Option<usize>>
    requires some { 0 < length buffer.old }
    ensures read { IfOk result (λ read. IfSome read
        (ReadsOn (length buffer.old) (O.Opened.remaining opened.old) (O.Opened.remaining opened.new) into.old.items into.new.items)) }
    ensures front { take (vec_len into.old) into.new.items ≡ into.old.items }
    ensures kept { (O.told opens.new).held ≡ (O.told opens.old).held }
    ensures later { (n : List ℕ) → (O.told opens.old).faults n ≤ (O.told opens.new).faults n }
    ensures count { CountsErr ((O.told opens.old).faults name.now) ((O.told opens.new).faults name.now) result }
    ensures no_other { (O.told opens.new).fetched ≡ (O.told opens.old).fetched }
{
    let room = into.capacity().saturating_sub(into.len());
    let most = room.min(buffer.len());
    if most > 0 {
        return read_in_place(opens, name, opened, most, into);
    }
    read_through(opens, name, opened, buffer, into)
}

// Appends what one read gives, at most so many bytes.
fn read_in_place<O: Opens>(
    opens: &mut O,
    name: &str,
    opened: &mut O::Opened,
    most: usize,
    into: &mut Vec<u8>,
) -> io::Result<Option<usize>>
    requires some { 0 < most }
    requires room { vec_len into.old + most ≤ vec_capacity into.old }
    ensures read { IfOk result (λ read. IfSome read
        (ReadsOn most (O.Opened.remaining opened.old) (O.Opened.remaining opened.new) into.old.items into.new.items)) }
    ensures front { take (vec_len into.old) into.new.items ≡ into.old.items }
    ensures kept { (O.told opens.new).held ≡ (O.told opens.old).held }
    ensures later { (n : List ℕ) → (O.told opens.old).faults n ≤ (O.told opens.new).faults n }
    ensures count { CountsErr ((O.told opens.old).faults name.now) ((O.told opens.new).faults name.now) result }
    ensures no_other { (O.told opens.new).fetched ≡ (O.told opens.old).fetched }
{
    let start = into.len();
    if into.resize(start + most, 0).is_err() {
        return Ok(None);
    }
    let result = opens.read(name, opened, &mut into.as_mut_slice()[start..]);
    match result {
        Ok(count) => {
            into.truncate(start + count);
            Ok(Some(count))
        }
        Err(error) => Err(error),
    }
}

// Appends what one read gives, by a buffer.
fn read_through<O: Opens>(
    opens: &mut O,
    name: &str,
    opened: &mut O::Opened,
    buffer: &mut [u8],
    into: &mut Vec<u8>,
) -> io::Result<Option<usize>>
    requires some { 0 < length buffer.old }
    ensures read { IfOk result (λ read. IfSome read
        (ReadsOn (length buffer.old) (O.Opened.remaining opened.old) (O.Opened.remaining opened.new) into.old.items into.new.items)) }
    ensures front { take (vec_len into.old) into.new.items ≡ into.old.items }
    ensures kept { (O.told opens.new).held ≡ (O.told opens.old).held }
    ensures later { (n : List ℕ) → (O.told opens.old).faults n ≤ (O.told opens.new).faults n }
    ensures count { CountsErr ((O.told opens.old).faults name.now) ((O.told opens.new).faults name.now) result }
    ensures no_other { (O.told opens.new).fetched ≡ (O.told opens.old).fetched }
{
    match opens.read(name, opened, buffer) {
        Ok(count) => {
            if into.extend_from_slice(&buffer[..count]).is_err() {
                return Ok(None);
            }
            Ok(Some(count))
        }
        Err(error) => Err(error),
    }
}

#[cfg(test)]
mod tests {
    use super::*;
    use std::io::{ErrorKind, Read};
    use std::test::Fail;

    /// By which each name holds the same bytes, which it tells.
    #[derive(Drop)]
    struct Held<'a> {
        bytes: &'a [u8],
        hint: u64,
        faults: u64,
    }

    impl<'a> Opens for Held<'a> {
        type Opened = &'a [u8];

        ghost told = { λ s. record { held = λ _. Some s.bytes.now; faults = λ _. s.faults; fetched = None } };

        fn open(&mut self, _name: &str) -> io::Result<&'a [u8]> {
            Ok(self.bytes)
        }

        fn size_hint(&self, _opened: &&'a [u8]) -> u64 {
            self.hint
        }

        fn read(
            &mut self,
            _name: &str,
            opened: &mut &'a [u8],
            buffer: &mut [u8],
        ) -> io::Result<usize> {
            let result = opened.read(buffer);
            if result.is_err() {
                self.faults = self.faults.saturating_add(1);
            }
            result
        }
    }

    #[test]
    fn fetches_what_is_told(rt: HostRuntime) -> Result<(), Fail> {
        let mut shelf = OpenShelf::over(Held {
            bytes: b"hello",
            hint: 5,
            faults: 0,
        });
        let mut into = vec![in rt.alloc(); b'x']?;
        let fault = FetchFault::TooLong { seen: 5 };
        assert_eq!(rt; shelf.fetch("D", 4, &mut into), Err(fault));
        assert_eq!(rt; into.as_slice(), b"x".as_slice());
        assert_eq!(rt; shelf.fetch("D", 5, &mut into), Ok(()));
        assert_eq!(rt; into.as_slice(), b"xhello".as_slice());
        assert_eq!(rt; shelf.opens.faults, 0);
        Ok(())
    }

    #[test]
    fn reads_all_whatever_the_hint(rt: HostRuntime) -> Result<(), Fail> {
        for hint in [0, 3, 9, u64::MAX] {
            let mut shelf = OpenShelf::over(Held {
                bytes: b"hello",
                hint,
                faults: 0,
            });
            let mut into = vec![in rt.alloc(); b'x']?;
            assert_eq!(rt; shelf.fetch("D", u64::MAX, &mut into), Ok(()));
            assert_eq!(rt; into.as_slice(), b"xhello".as_slice());
        }
        Ok(())
    }

    /// A reader that gives a byte at a time, and then fails.
    #[derive(Drop)]
    struct Failing(u8);

    impl Read for Failing {
        fn read(&mut self, buf: &mut [u8]) -> io::Result<usize> {
            if self.0 == 0 || buf.is_empty() {
                return Err(io::Error::from(ErrorKind::Other));
            }
            self.0 -= 1;
            buf[0] = self.0;
            Ok(1)
        }
    }

    /// By which each name opens to such a reader.
    #[derive(Drop)]
    struct FailsLate {
        bytes: u8,
        faults: u64,
    }

    impl Opens for FailsLate {
        type Opened = Failing;

        ghost told = { λ s. counts_alone s.faults };

        fn open(&mut self, _name: &str) -> io::Result<Failing> {
            Ok(Failing(self.bytes))
        }

        fn size_hint(&self, _opened: &Failing) -> u64 {
            2
        }

        fn read(
            &mut self,
            _name: &str,
            opened: &mut Failing,
            buffer: &mut [u8],
        ) -> io::Result<usize> {
            let result = opened.read(buffer);
            if result.is_err() {
                self.faults = self.faults.saturating_add(1);
            }
            result
        }
    }

    #[test]
    fn forgets_what_was_read_before_a_fault(rt: HostRuntime) -> Result<(), Fail> {
        let mut shelf = OpenShelf::over(FailsLate {
            bytes: 3,
            faults: 0,
        });
        let mut into = vec![in rt.alloc(); b'x']?;
        assert_eq!(rt; shelf.fetch("D", 9, &mut into), Err(FetchFault::Failed));
        assert_eq!(rt; shelf.opens.faults, 1);
        assert_eq!(rt; into.as_slice(), b"x".as_slice());
        let fault = FetchFault::TooLong { seen: 3 };
        assert_eq!(rt; shelf.fetch("D", 2, &mut into), Err(fault));
        assert_eq!(rt; into.as_slice(), b"x".as_slice());
        assert_eq!(rt; shelf.opens.faults, 1);
        Ok(())
    }
}
