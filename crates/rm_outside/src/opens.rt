//! What opens names, and counts the faults of it.
ghost use Rattle.std.specs.Prelude.{◌≡◌, ◌≤◌, ℕ, List, [], ◌∷◌, Some, IfOk, IfSome};
ghost use Rattle.std.specs.Io.{ReadsAtMost};
ghost use Rattle.std.specs.Io.KnownBytes.{ReadConsumes};
ghost use Rattle.rm_outside.specs.Sink.{CountsErr};
ghost use Rattle.rm_outside.specs.Told.{Told, GrewBy};

use std::io;
use std::io::Read;

/// What opens a name to a reader of the bytes that the name holds.
///
/// It alone counts the faults, so that whoever holds it can raise no count but by a call that fails.
pub trait Opens {
    /// What a name is opened to.
    type Opened: Read + Drop;

    /// What is told: the bytes that a name holds, a count of the faults of a name, of opening it and of
    /// reading it, and the names that were opened so far. Less may be told.
    ghost told: { Self → Told };

    /// Opens what has this name, from its first byte on.
    fn open(&mut self, name: &str) -> io::Result<Self::Opened>
        ensures whole { IfOk result (λ opened. IfSome ((told self.old).held name.now)
            (λ bytes. Self.Opened.remaining opened ≡ Some bytes)) }
        ensures kept { (told self.new).held ≡ (told self.old).held }
        ensures later { (n : List ℕ) → (told self.old).faults n ≤ (told self.new).faults n }
        ensures count { CountsErr ((told self.old).faults name.now) ((told self.new).faults name.now) result }
        ensures opened { GrewBy (name.now ∷ []) (told self.old).fetched (told self.new).fetched };

    /// How many bytes are likely left in what was opened, for which room is made at once. Nothing rests on it: all is read that
    /// comes, be it more or fewer. 0 where nothing is known.
    fn size_hint(&self, opened: &Self::Opened) -> u64;

    /// Reads on in what this name was opened to, as the reader's own `read` does.
    fn read(
        &mut self,
        name: &str,
        opened: &mut Self::Opened,
        buffer: &mut [u8],
    ) -> io::Result<usize>
        ensures bound { ReadsAtMost result buffer.new }
        ensures bytes { ReadConsumes (Self.Opened.remaining opened.old) (Self.Opened.remaining opened.new) result buffer.new }
        ensures kept { (told self.new).held ≡ (told self.old).held }
        ensures later { (n : List ℕ) → (told self.old).faults n ≤ (told self.new).faults n }
        ensures count { CountsErr ((told self.old).faults name.now) ((told self.new).faults name.now) result }
        ensures no_other { (told self.new).fetched ≡ (told self.old).fetched };
}
