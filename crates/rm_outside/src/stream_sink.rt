//! Sinks over whatever takes bytes.
ghost use Rattle.std.specs.Prelude.{◌≡◌, ◌≤◌, OnOk, OnErr, true, false};
ghost use Rattle.std.specs.Io.KnownBytes.{Appends};
ghost use Rattle.rm_outside.specs.Faults.{Rose, counted};
ghost use Rattle.rm_outside.specs.Sink.{AppendsPart, CountsErr};

use crate::{Sink, SinkFailed, Takes};

/// The sink of the rows, over what takes bytes and does not hold them back, as standard output.
///
/// A put fails where a write fails, where a signal interrupts it, and where it takes nothing. Its count of faults is the
/// writer's, so that no put fails but by a write that failed. What was written is told where the writer tells it; the
/// system's streams do not.
#[derive(Drop)]
pub struct OutSink<W> {
    to: W,
}

/// The sink of the notes, over standard error, which is one such.
pub type NoteSink<W> = OutSink<W>;

impl<W: Takes> OutSink<W> {
    /// A sink over this writer.
    pub fn new(to: W) -> OutSink<W>
        ensures { result.to ≡ to }
    {
        OutSink { to }
    }
}

impl<W: Takes> Sink for OutSink<W> {
    ghost told = { λ s. W.told s.to };

    fn put(&mut self, bytes: &[u8]) -> Result<(), SinkFailed>
        ensures ok { OnOk result (Appends (W.told self.old.to).bytes (W.told self.new.to).bytes bytes.now) }
        ensures part { OnErr result (AppendsPart (W.told self.old.to).bytes (W.told self.new.to).bytes bytes.now) }
        ensures later { (W.told self.old.to).faults ≤ (W.told self.new.to).faults }
        ensures failed { OnErr result (Rose (W.told self.old.to).faults (W.told self.new.to).faults) }

        // The count rises at a failure alone.
        ensures count { CountsErr (W.told self.old.to).faults (W.told self.new.to).faults result }
    {
        if write_whole(&mut self.to, bytes) {
            return Ok(());
        }
        Err(SinkFailed)
    }
}

// Whether all the bytes were written.
#[tactic(auto, using(crate::proofs::Known::appends_take, crate::proofs::Known::appends_kept, crate::proofs::Known::part_of))]
fn write_whole<W: Takes>(to: &mut W, bytes: &[u8]) -> bool
    ensures whole { result ≡ true → Appends (W.told to.old).bytes (W.told to.new).bytes bytes.now }
    ensures part { AppendsPart (W.told to.old).bytes (W.told to.new).bytes bytes.now }
    ensures later { (W.told to.old).faults ≤ (W.told to.new).faults }
    ensures quiet { result ≡ true → (W.told to.new).faults ≡ (W.told to.old).faults }
    ensures failed { result ≡ false → (W.told to.new).faults ≡ counted (W.told to.old).faults }
{
    let mut at = 0;
    while at < bytes.len() {
        match to.write(&bytes[at..]) {
            Ok(count) => at += count,
            Err(_) => return false,
        }
    }
    true
}

#[cfg(test)]
mod tests {
    use super::*;
    use crate::Counting;
    use std::fs::File;
    use std::io::Write;
    use std::test::Fail;
    use std::{fs, io};

    #[test]
    fn writes_files_and_streams(rt: HostRuntime) -> Result<(), Fail> {
        let alloc = rt.alloc();
        let mut out = OutSink::new(Counting::new(File::create(&rt, "written")?));
        assert_eq!(rt; out.put(b"one\n"), Ok(()));
        assert_eq!(rt; out.put(b""), Ok(()));
        assert_eq!(rt; out.put(b"two\n"), Ok(()));
        assert_eq!(rt;
            fs::read(&rt, "written")?.as_slice(),
            b"one\ntwo\n".as_slice()
        );
        fs::remove_file(&rt, "written")?;
        let mut notes = NoteSink::new(Counting::new(Vec::new(alloc)));
        assert_eq!(rt; notes.put(b"a note"), Ok(()));
        assert_eq!(rt; notes.to.of.as_slice(), b"a note".as_slice());
        assert_eq!(rt; OutSink::new(Counting::new(rt.stdout())).put(b""), Ok(()));
        assert_eq!(rt; NoteSink::new(Counting::new(rt.stderr())).put(b""), Ok(()));
        Ok(())
    }

    #[test]
    fn counts_the_faults_of_a_full_device(rt: HostRuntime) -> Result<(), Fail> {
        let mut out = OutSink::new(Counting::new(File::create(&rt, "/dev/full")?));
        let mut notes = NoteSink::new(Counting::new(File::create(&rt, "/dev/full")?));
        for count in 1..3 {
            assert_eq!(rt; out.put(b"lost"), Err(SinkFailed));
            assert_eq!(rt; out.to.faults, count);
            assert_eq!(rt; notes.put(b"lost"), Err(SinkFailed));
            assert_eq!(rt; notes.to.faults, count);
        }
        Ok(())
    }

    // A writer that takes a byte at a time, and nothing once it is full.
    #[derive(Drop)]
    struct Filling {
        bytes: [u8; 4],
        len: usize,
    }

    impl Write for Filling {
        fn write(&mut self, buf: &[u8]) -> io::Result<usize> {
            if self.len >= 4 || buf.is_empty() {
                return Ok(0);
            }
            self.bytes[self.len] = buf[0];
            self.len += 1;
            Ok(1)
        }

        fn flush(&mut self) -> io::Result<()> {
            Ok(())
        }
    }

    #[test]
    fn writes_piece_by_piece(rt: HostRuntime) -> Result<(), Fail> {
        let mut out = OutSink::new(Counting::new(Filling {
            bytes: [0; 4],
            len: 0,
        }));
        assert_eq!(rt; out.put(b"abc"), Ok(()));
        assert_eq!(rt; out.put(b"def"), Err(SinkFailed));
        assert_eq!(rt; out.to.of.bytes.as_slice(), b"abcd".as_slice());
        assert_eq!(rt; out.to.faults, 1);
        Ok(())
    }
}
