//! A shelf of named documents.
ghost use Rattle.std.specs.Prelude.{◌≡◌, ◌≤◌, ℕ, List, [], ◌∷◌, ◌++◌, length, OnOk, OnErr, IfSome, IsErrOf};
ghost use Rattle.rm_outside.specs.Faults.{Rose};
ghost use Rattle.rm_outside.specs.Shelf.{Gains, SeenPast, ByLength};
ghost use Rattle.rm_outside.specs.Told.{Told, GrewBy};

/// Why a fetch appended nothing.
#[derive(Clone, Copy, Debug, PartialEq, Eq)]
pub enum FetchFault {
    /// The name cannot be read. The shelf counted a fault of this name.
    Failed,
    /// `seen` bytes were found, more than the limit. The name may hold more of them.
    TooLong { seen: u64 },
    /// The allocator gave no memory.
    OutOfMemory,
}

/// Where documents are fetched by their names.
pub trait Shelf {
    /// What the shelf tells: the bytes that a name holds, a count of the failed fetches of each name, and
    /// the names that were fetched so far. A shelf may tell less.
    ghost told: { Self → Told };

    /// Appends all that the name holds to `into`, if that is at most `limit` bytes.
    /// After an `Err` the vector has the bytes that it had before. Whatever comes, the name was fetched once.
    fn fetch(&mut self, name: &str, limit: u64, into: &mut Vec<u8>) -> Result<(), FetchFault>
        ensures gains { OnOk result (Gains limit into.old.items into.new.items) }
        ensures whole { OnOk result (IfSome ((told self.old).held name.now) (λ bytes. into.new.items ≡ into.old.items ++ bytes)) }
        ensures refused { OnErr result (into.new.items ≡ into.old.items) }
        ensures seen { SeenPast limit result }
        ensures by_length { IfSome ((told self.old).held name.now) (λ bytes. ByLength limit (length bytes) result) }
        ensures kept { (told self.new).held ≡ (told self.old).held }
        ensures later { (n : List ℕ) → (told self.old).faults n ≤ (told self.new).faults n }
        ensures failed { IsErrOf result FetchFault.Failed → Rose ((told self.old).faults name.now) ((told self.new).faults name.now) }
        ensures fetched { GrewBy (name.now ∷ []) (told self.old).fetched (told self.new).fetched };
}
