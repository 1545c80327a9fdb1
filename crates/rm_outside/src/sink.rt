//! A sink for bytes.
ghost use Rattle.std.specs.Prelude.{◌≤◌, OnOk, OnErr, None};
ghost use Rattle.rm_outside.specs.Change.{change, Adds, AddsPart, Failed};
ghost use Rattle.rm_outside.specs.Flow.{Flow, flow};

/// A put failed. The sink counted a fault, and took a prefix of the bytes, perhaps all of them.
#[derive(Clone, Copy, Debug, PartialEq, Eq)]
pub struct SinkFailed;

/// Where bytes are written. No put takes memory.
pub trait Sink {
    /// The bytes written, where the sink tells them, and a count of the failed puts.
    ghost told: { Self → Flow };

    /// Writes all the bytes after those that were written before.
    fn put(&mut self, bytes: &[u8]) -> Result<(), SinkFailed>
        ensures ok { OnOk result (Adds (change (told self.old) (told self.new)) bytes.now) }
        ensures part { OnErr result (AddsPart (change (told self.old) (told self.new)) bytes.now) }
        ensures later { (told self.old).faults ≤ (told self.new).faults }
        ensures failed { OnErr result (Failed (change (told self.old) (told self.new))) };
}

/// A sink that drops what it gets, and never fails.
#[derive(Clone, Copy, Debug, PartialEq, Eq)]
pub struct SureSink;

impl Sink for SureSink {
    ghost told = { λ _. flow None 0 };

    fn put(&mut self, _bytes: &[u8]) -> Result<(), SinkFailed> {
        Ok(())
    }
}
