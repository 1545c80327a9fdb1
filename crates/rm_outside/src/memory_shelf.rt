//! A shelf in memory, whose fetches can be made to fail.
ghost use Rattle.std.specs.Prelude.{◌≡◌, ◌≤◌, ◌⊎◌, ◌↔◌, ℕ, List, [], ◌∷◌, None, Some, ◌++◌, length, map, option_map, string_bytes, OnOk, OnErr, IfSome, IsErrOf, Contains, if◌then◌else◌, bytes_eq};
ghost use Rattle.rm_outside.specs.Faults.{Rose, counted};
ghost use Rattle.rm_outside.specs.Shelf.{Gains, SeenPast, ByLength, CountsFailure};
ghost use Rattle.rm_outside.specs.Told.{GrewBy};

use crate::{FetchFault, Shelf};
use span_core::OutOfMemory;
use std::alloc::Global;
use std::collections::BTreeMap;

/// A shelf that holds documents in memory and tells them, for tests.
///
/// Its fetches are numbered from 0. A fetch whose number was given to `new`, and one of a name that
/// is not held, fails and raises the one count of faults that it keeps for all names. It tells the names
/// that were fetched, unless there was no memory for one of them.
#[derive(Drop)]
pub struct MemoryShelf {
    alloc: Global,
    files: BTreeMap<String, Vec<u8>>,
    failing: Vec<u64>,
    turn: u64,
    faults: u64,
    fetched: Option<Vec<String>>,
}

impl MemoryShelf {
    ghost use Rattle.rm_outside.specs.MemoryShelf.{held_of, shelf_faults, fetched_names, next_fetch, failing_fetches};

    /// A shelf that holds no name. The fetches with the numbers in `failing` fail.
    pub fn new(alloc: Global, failing: Vec<u64>) -> MemoryShelf
        ensures held { (n : List ℕ) → held_of result n ≡ None }
        ensures faults { shelf_faults result ≡ 0 }
        ensures turn { next_fetch result ≡ 0 }
        ensures failing { failing_fetches result ≡ failing.items }
        ensures fetched { fetched_names result ≡ Some [] }
    {
        MemoryShelf {
            alloc,
            files: BTreeMap::new(alloc),
            failing,
            turn: 0,
            faults: 0,
            fetched: Some(Vec::new(alloc)),
        }
    }

    /// Adds a name that holds these bytes.
    pub fn hold(&mut self, name: &str, bytes: &[u8]) -> Result<(), OutOfMemory>
        requires { held_of self.old name.now ≡ None }
        ensures ok { OnOk result ((n : List ℕ) →
            held_of self.new n ≡ (if bytes_eq name.now n then Some bytes.now else held_of self.old n)) }
        ensures err { OnErr result ((n : List ℕ) → held_of self.new n ≡ held_of self.old n) }
        ensures faults { shelf_faults self.new ≡ shelf_faults self.old }
        ensures turn { next_fetch self.new ≡ next_fetch self.old }
        ensures failing { failing_fetches self.new ≡ failing_fetches self.old }
        ensures fetched { fetched_names self.new ≡ fetched_names self.old }
    {
        let name = String::from_str(self.alloc, name)?;
        let bytes = bytes.to_vec(self.alloc)?;
        self.files.insert(name, bytes)?;
        Ok(())
    }

    /// The names that were fetched so far, in order. None once there was no memory for one of them.
    pub fn fetched(&self) -> Option<&[String]>
        ensures { option_map (λ names. map string_bytes names.now) result ≡ fetched_names self.now }
    {
        match &self.fetched {
            Some(names) => Some(names.as_slice()),
            None => None,
        }
    }
}

impl Shelf for MemoryShelf {
    ghost use Rattle.rm_outside.specs.MemoryShelf.{held_of, shelf_faults, fetched_names, shelf_told, next_fetch, failing_fetches};

    ghost told = { shelf_told };

    fn fetch(&mut self, name: &str, limit: u64, into: &mut Vec<u8>) -> Result<(), FetchFault>
        ensures gains { OnOk result (Gains limit into.old.items into.new.items) }
        ensures whole { OnOk result (IfSome (held_of self.old name.now) (λ bytes. into.new.items ≡ into.old.items ++ bytes)) }
        ensures refused { OnErr result (into.new.items ≡ into.old.items) }
        ensures seen { SeenPast limit result }
        ensures by_length { IfSome (held_of self.old name.now) (λ bytes. ByLength limit (length bytes) result) }
        ensures kept { held_of self.new ≡ held_of self.old }
        ensures later { (n : List ℕ) → shelf_faults self.old ≤ shelf_faults self.new }
        ensures failed { IsErrOf result FetchFault.Failed → Rose (shelf_faults self.old) (shelf_faults self.new) }
        ensures fetched { GrewBy (name.now ∷ []) (fetched_names self.old) (fetched_names self.new) }

        // It fails exactly where it was told to and where the name is not held, and counts that.
        ensures told_to { IsErrOf result FetchFault.Failed ↔
            (Contains (failing_fetches self.old) (next_fetch self.old) ⊎ (held_of self.old name.now ≡ None)) }
        ensures count { CountsFailure (shelf_faults self.old) (shelf_faults self.new) result }
        ensures turn { next_fetch self.new ≡ counted (next_fetch self.old) }
        ensures failing { failing_fetches self.new ≡ failing_fetches self.old }
    {
        let turn = self.turn;
        self.turn = turn.saturating_add(1);
        self.fetched = with_name(self.alloc, self.fetched.take(), name);
        if self.failing.contains(&turn) {
            return Err(miss(&mut self.faults));
        }
        match self.files.get(name) {
            Some(bytes) => append(bytes, limit, into),
            None => Err(miss(&mut self.faults)),
        }
    }
}

// The names with one more behind them, or None where there is no memory for it.
fn with_name(alloc: Global, fetched: Option<Vec<String>>, name: &str) -> Option<Vec<String>>
    ensures { GrewBy (name.now ∷ []) (option_map (λ names. map string_bytes names.items) fetched)
        (option_map (λ names. map string_bytes names.items) result) }
{
    let mut names = fetched?;
    let name = String::from_str(alloc, name).ok()?;
    names.push(name).ok()?;
    Some(names)
}

// Counts a fault.
fn miss(faults: &mut u64) -> FetchFault
    ensures fault { result ≡ FetchFault.Failed }
    ensures count { faults.new ≡ counted faults.old }
    ensures later { faults.old ≤ faults.new }
{
    *faults = faults.saturating_add(1);
    FetchFault::Failed
}

// Appends all the bytes, unless they are more than limit.
fn append(bytes: &[u8], limit: u64, into: &mut Vec<u8>) -> Result<(), FetchFault>
    ensures ok { OnOk result (into.new.items ≡ into.old.items ++ bytes.now) }
    ensures refused { OnErr result (into.new.items ≡ into.old.items) }
    ensures seen { SeenPast limit result }
    ensures by_length { ByLength limit (length bytes.now) result }
    ensures never { IsErrOf result FetchFault.Failed → ⊥ }
{
    let seen = bytes.len() as u64;
    if seen > limit {
        return Err(FetchFault::TooLong { seen });
    }
    match into.extend_from_slice(bytes) {
        Ok(()) => Ok(()),
        Err(_) => Err(FetchFault::OutOfMemory),
    }
}

#[cfg(test)]
mod tests {
    use super::*;
    use std::test::Fail;

    #[test]
    fn holds_and_fails(rt: HostRuntime) -> Result<(), Fail> {
        let alloc = rt.alloc();
        let mut shelf = MemoryShelf::new(alloc, vec![in alloc; 2, 4]?);
        shelf.hold("D", b"abc")?;
        shelf.hold("E", b"")?;
        let mut into = vec![in alloc; b'x']?;
        let failed = Err(FetchFault::Failed);
        let too_long = Err(FetchFault::TooLong { seen: 3 });
        let fetches = [
            ("D", 3, Ok(()), 0),
            ("D", 2, too_long, 0),
            ("D", 9, failed, 1),
            ("F", 9, failed, 2),
            ("D", 2, failed, 3),
            ("E", 0, Ok(()), 3),
            ("D", 9, Ok(()), 3),
        ];
        for (name, limit, want, faults) in fetches {
            assert_eq!(rt; shelf.fetch(name, limit, &mut into), want);
            assert_eq!(rt; shelf.faults, faults);
        }
        assert_eq!(rt; into.as_slice(), b"xabcabc".as_slice());
        let fetched = shelf.fetched().ok_or(OutOfMemory)?;
        assert_eq!(rt; fetched.len(), fetches.len());
        for (told, (name, _, _, _)) in fetched.iter().zip(fetches) {
            assert_eq!(rt; told.as_str(), name);
        }
        Ok(())
    }
}
