//! A source in memory, whose calls can be made to fail.
ghost use Rattle.std.specs.Prelude.{◌≡◌, ◌≤◌, ◌↔◌, ◌<◌, ℕ, List, Some, [], ◌++◌, length, drop, take, Contains, IsErrOf, IfOk, IfSome, IfNone};
ghost use Rattle.rm_outside.specs.Faults.{Rose, counted};
ghost use Rattle.rm_outside.specs.Source.{AsksLine, AsksFirst};

use crate::lines::line_length;
use crate::{LineFault, Source};

/// A source that holds its bytes in memory and tells them, for tests.
///
/// Its calls are numbered from 0. A call whose number was given to `new` fails, raises the count of faults, and takes nothing.
#[derive(Drop)]
pub struct MemorySource {
    held: Vec<u8>,
    at: usize,
    failing: Vec<u64>,
    turn: u64,
    faults: u64,
    ghost within: { at ≤ length held.items },
}

impl MemorySource {
    ghost use Rattle.rm_outside.specs.MemorySource.{left_of, source_faults, next_call, failing_calls};

    /// A source of these bytes. The calls with the numbers in `failing` fail.
    pub fn new(held: Vec<u8>, failing: Vec<u64>) -> MemorySource
        ensures left { left_of result ≡ held.items }
        ensures faults { source_faults result ≡ 0 }
        ensures turn { next_call result ≡ 0 }
        ensures failing { failing_calls result ≡ failing.items }
    {
        MemorySource {
            held,
            at: 0,
            failing,
            turn: 0,
            faults: 0,
        }
    }
}

impl Source for MemorySource {
    ghost use Rattle.rm_outside.specs.MemorySource.{left_of, source_faults, source_told, next_call, failing_calls};

    ghost told = { source_told };

    fn line(&mut self, limit: usize, into: &mut Vec<u8>) -> Result<bool, LineFault>
        ensures asks { AsksLine limit (Some (left_of self.old)) (Some (left_of self.new)) into.old.items into.new.items result }
        ensures later { source_faults self.old ≤ source_faults self.new }
        ensures failed { IsErrOf result LineFault.Failed → Rose (source_faults self.old) (source_faults self.new) }

        // It fails exactly where it was told to.
        ensures told_to { IsErrOf result LineFault.Failed ↔ Contains (failing_calls self.old) (next_call self.old) }
        ensures turn { next_call self.new ≡ counted (next_call self.old) }
        ensures failing { failing_calls self.new ≡ failing_calls self.old }
    {
        let turn = self.turn;
        self.turn = turn.saturating_add(1);
        if self.failing.contains(&turn) {
            self.faults = self.faults.saturating_add(1);
            return Err(LineFault::Failed);
        }
        let (_, left) = self.held.as_slice().split_at(self.at);
        match line_of(left, limit, into) {
            Ok(Some(taken)) => {
                self.at += taken;
                Ok(true)
            }
            Ok(None) => Ok(false),
            Err(fault) => Err(fault),
        }
    }
}

/// Appends the first line of these bytes, and tells how many bytes it takes with its end; None where there is none.
fn line_of(left: &[u8], limit: usize, into: &mut Vec<u8>) -> Result<Option<usize>, LineFault>
    ensures asks { AsksFirst limit left.now into.old.items into.new.items result }
    ensures within { IfOk result (λ taken. IfSome taken (λ n. n ≤ length left.now)) }
    ensures never { IsErrOf result LineFault.Failed → ⊥ }
{
    if left.is_empty() {
        return Ok(None);
    }
    let length = line_length(left);
    if length > limit {
        return Err(LineFault::TooLong {
            seen: length as u64,
        });
    }
    match into.extend_from_slice(&left[..length]) {
        Ok(()) => Ok(Some(length + usize::from(length < left.len()))),
        Err(_) => Err(LineFault::OutOfMemory),
    }
}
