//! A source of lines.
ghost use Rattle.std.specs.Prelude.{◌≤◌, IsErrOf};
ghost use Rattle.rm_outside.specs.Change.{change, Failed};
ghost use Rattle.rm_outside.specs.Flow.{Flow};
ghost use Rattle.rm_outside.specs.Source.{AsksLine};

/// Why no line was appended.
#[derive(Clone, Copy, Debug, PartialEq, Eq)]
pub enum LineFault {
    /// The source cannot be read. It counted a fault.
    Failed,
    /// `seen` bytes of a line were found, more than the limit. It may have more of them.
    TooLong { seen: u64 },
    /// The allocator gave no memory.
    OutOfMemory,
}

/// Where lines come from. A line ends at a byte 0A, which is no part of it, or where no such byte is left at the end
/// of all bytes.
pub trait Source {
    /// The bytes that are left, where they are told, and a count of the failed reads.
    ghost told: { Self → Flow };

    /// Takes the next line, if it has at most `limit` bytes, and appends it to `into`. True where it did, and false where no
    /// byte is left. After an `Err` the vector has the bytes that it had before.
    fn line(&mut self, limit: usize, into: &mut Vec<u8>) -> Result<bool, LineFault>
        ensures asks { AsksLine limit (told self.old).bytes (told self.new).bytes into.old.items into.new.items result }
        ensures later { (told self.old).faults ≤ (told self.new).faults }
        ensures failed { IsErrOf result LineFault.Failed → Failed (change (told self.old) (told self.new)) };
}
