//! A sink in memory, whose puts can be made to fail.
ghost use Rattle.std.specs.Prelude.{◌≡◌, ◌+◌, ◌-◌, ◌≤◌, ◌↔◌, ◌==◌, ◌++◌, Some, [], length, take, vec_len, IfOk, IsOk, IsNone, OnOk, OnErr, option_map, find};
ghost use Rattle.std.specs.Vec.{vec_capacity};
ghost use Rattle.rm_outside.specs.Faults.{Rose, counted};
ghost use Rattle.rm_outside.specs.Sink.{AppendsPart, CountsErr};

use crate::{Sink, SinkFailed};
use span_core::OutOfMemory;
use std::alloc::Global;

/// A sink that keeps its bytes in memory and tells them, for tests.
///
/// Its puts are numbered from 0. A put whose number was given to `new` takes no more than the bytes
/// given with it, and fails. A put that does not fit the capacity takes what fits, and fails.
#[derive(Drop)]
pub struct MemorySink {
    bytes: Vec<u8>,
    capacity: usize,
    failing: Vec<(u64, usize)>,
    turn: u64,
    faults: u64,
    ghost fits: { vec_len bytes ≤ capacity },
    ghost room: { capacity ≤ vec_capacity bytes },
}

impl MemorySink {
    ghost use Rattle.rm_outside.specs.MemorySink.{written_of, sink_faults, capacity_of, next_put, failing_puts};

    /// An empty sink with room for `capacity` bytes. `failing` has the numbers of the puts that
    /// fail, each with the most bytes that this put takes. Of a number that stands there twice the
    /// first place counts.
    pub fn new(
        alloc: Global,
        capacity: usize,
        failing: Vec<(u64, usize)>,
    ) -> Result<MemorySink, OutOfMemory>
        ensures empty { IfOk result (λ s. written_of s ≡ []) }
        ensures faults { IfOk result (λ s. sink_faults s ≡ 0) }
        ensures turn { IfOk result (λ s. next_put s ≡ 0) }
        ensures capacity { IfOk result (λ s. capacity_of s ≡ capacity) }
        ensures failing { IfOk result (λ s. failing_puts s ≡ failing.items) }
    {
        let bytes = Vec::with_capacity(alloc, capacity)?;
        Ok(MemorySink {
            bytes,
            capacity,
            failing,
            turn: 0,
            faults: 0,
        })
    }

    /// The bytes written so far.
    pub fn bytes(&self) -> &[u8]
        ensures { result.now ≡ written_of self.now }
    {
        &self.bytes
    }
}

impl Sink for MemorySink {
    ghost use Rattle.rm_outside.specs.MemorySink.{written_of, sink_faults, sink_told, capacity_of, next_put, failing_puts, most_of_next, taken_by};

    ghost told = { sink_told };

    fn put(&mut self, bytes: &[u8]) -> Result<(), SinkFailed>
        ensures ok { OnOk result (written_of self.new ≡ written_of self.old ++ bytes.now) }
        ensures part { OnErr result (AppendsPart (Some (written_of self.old)) (Some (written_of self.new)) bytes.now) }
        ensures later { sink_faults self.old ≤ sink_faults self.new }
        ensures failed { OnErr result (Rose (sink_faults self.old) (sink_faults self.new)) }

        // It fails unless it was not told to and the bytes fit, and counts that.
        ensures succeeds { IsOk result ↔
            (IsNone (most_of_next self.old) × (length (written_of self.old) + length bytes.now ≤ capacity_of self.old)) }
        ensures taken { written_of self.new ≡ written_of self.old ++ take (taken_by self.old (length bytes.now)) bytes.now }
        ensures count { CountsErr (sink_faults self.old) (sink_faults self.new) result }
        ensures turn { next_put self.new ≡ counted (next_put self.old) }
        ensures capacity { capacity_of self.new ≡ capacity_of self.old }
        ensures failing { failing_puts self.new ≡ failing_puts self.old }
    {
        let turn = self.turn;
        self.turn = turn.saturating_add(1);
        let room = self.capacity - self.bytes.len();
        let asked = asked_for(&self.failing, turn);
        let count = bytes.len().min(asked.unwrap_or(bytes.len())).min(room);
        self.bytes.extend_from_slice(&bytes[..count]).unwrap();
        if asked.is_none() && bytes.len() <= room {
            return Ok(());
        }
        self.faults = self.faults.saturating_add(1);
        Err(SinkFailed)
    }
}

// The most bytes that the put of this number takes, if it is to fail.
fn asked_for(failing: &[(u64, usize)], turn: u64) -> Option<usize>
    ensures { result ≡ option_map (λ p. p.1) (find (λ p. p.0 == turn) failing.now) }
{
    failing.iter().find(|p| p.0 == turn).map(|p| p.1)
}

#[cfg(test)]
mod tests {
    use super::*;
    use crate::{Status, SureSink};
    use std::test::Fail;

    #[test]
    fn takes_and_fails(rt: HostRuntime) -> Result<(), Fail> {
        let alloc = rt.alloc();
        let failing = vec![in alloc; (1, 1), (2, 9)]?;
        let mut sink = MemorySink::new(alloc, 10, failing)?;
        let puts = [
            (b"ab", Ok(()), 0),
            (b"cd", Err(SinkFailed), 1),
            (b"ef", Err(SinkFailed), 2),
            (b"gh", Ok(()), 2),
            (b"ij", Ok(()), 2),
            (b"kl", Err(SinkFailed), 3),
        ];
        for (bytes, want, faults) in puts {
            assert_eq!(rt; sink.put(bytes), want);
            assert_eq!(rt; sink.faults, faults);
        }
        assert_eq!(rt; sink.bytes(), b"abcefghijk".as_slice());
        assert_eq!(rt; sink.put(b""), Ok(()));
        assert_eq!(rt; SureSink.put(b"gone"), Ok(()));
        assert_eq!(rt; Status::Memory.exit_status(), 9);
        Ok(())
    }
}
