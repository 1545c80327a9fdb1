//! What is kept of a query from document to document: its table, and what is known of whole layers.
//!
//! A table keeps what it answered, which the automaton alone determines; so it serves each document, and only its weight
//! grows. A document that is refused over a kept table is read once more over a new one, so that a refusal is that of the
//! document alone.
ghost use Rattle.std.specs.Prelude.{◌≡◌, ℕ, ◌+◌, ◌^◌, ◌≤◌, length, IfErr, IfOk, None, OnOk, Some, true};
ghost use Rattle.std.specs.Option.{IfSome};
ghost use Rattle.span_core.specs.Intervals.{Covers};
ghost use Rattle.marked_automaton.specs.Automaton.{Automaton as Graph};
ghost use Rattle.automaton_reading.specs.Reading.{edges_K};
ghost use Rattle.output_graph.specs.Rows.{rows};
ghost use Rattle.one_pass.specs.Builds.{build};
ghost use Rattle.one_pass.specs.Faults.{IsReadFault};
ghost use Rattle.one_pass.specs.Places.{AreReadWords, is_touched};
ghost use Rattle.one_pass.specs.Weights.{WeighsWithin};
ghost use Rattle.spanner_engine.specs.Caching.{IsCacheOf, rebuild};

use marked_automaton::Automaton;
use one_pass::{KeptTable, KnownTable, Listed};
use output_graph::RowLists;
use set_table::TableFault;
use span_core::{Steps, Touched};
use std::alloc::Global;
use std::mem;
use std::sync::ledger::Ledger;

/// What is kept of a query from document to document, so that the next one is read with what was found out before: the table
/// of the sets that were reached, and what whole layers do on bytes.
///
/// It belongs to one query. It is given up when its table weighs more than the greatest weight that it was made with, or when
/// the room for layers (16 MB) is full; the next document begins a new one.
#[derive(Drop)]
pub struct Cache {
    alloc: Global,
    most: u64,
    kept: Option<KeptTable>,
}

impl Cache {
    /// Keeps nothing yet, so that it may be used with any query; later a table that weighs no more than `most`. The weight is that
    /// of `Options`. Takes no memory.
    pub fn new(alloc: Global, most: u64) -> Cache
        ensures any { (A : Graph) → IsCacheOf A result }
        ensures empty { result.kept ≡ None }
    {
        Cache {
            alloc,
            most,
            kept: None,
        }
    }

    /// The allocator.
    pub(crate) fn alloc(&self) -> Global {
        self.alloc
    }

    /// Whether it keeps nothing.
    pub fn is_empty(&self) -> bool
        ensures { result ≡ true → self.now.kept ≡ None }
    {
        self.kept.is_none()
    }

    /// Takes out what is kept, if it is of this limit; nothing is kept then.
    fn take(&mut self, limit: u64) -> Option<KeptTable>
        ensures kept { IfSome result (λ kept. (self.old.kept ≡ Some kept) × (kept.limit ≡ limit)) }
        ensures empty { self.new.kept ≡ None }
    {
        let Some(kept) = mem::replace(&mut self.kept, None) else {
            return None;
        };
        if kept.limit() != limit {
            return None;
        }
        Some(kept)
    }

    /// Keeps the table that a document was read by, with what is known of its layers, if it is light enough and there is room for
    /// more. Gives the lists of the document's words.
    fn keep(&mut self, listed: Listed<'_>) -> RowLists
        requires empty { self.old.kept ≡ None }
        ensures cache { IsCacheOf listed.entry.table.graph self.new }
        ensures lists { result ≡ listed.entry.lists }
    {
        let Listed { lists, table } = listed;
        if table.may_grow(self.most) {
            self.kept = Some(table.lay_down());
        }
        lists
    }

    /// The lists of the words with which a document is read at some positions: by the table that is kept, if it is of this limit. If
    /// none is kept, or the document is refused over it, it is read by a new one.
    pub(crate) fn lists<L: Ledger>(
        &mut self,
        automaton: &Automaton,
        doc: &[u8],
        positions: &Touched,
        limit: u64,
        steps: &mut Steps<L>,
    ) -> Result<RowLists, TableFault>
        requires cache { IsCacheOf automaton.now.graph self.old }
        requires few { length doc.now ≤ 2 ^ 28 }
        requires limit { limit ≤ 100000000 }
        requires within { (q : ℕ) → Covers positions.now q → q ≤ length doc.now }
        ensures cache { IsCacheOf automaton.now.graph self.new }
        ensures words { IfOk result (λ lists. AreReadWords automaton.now.graph (is_touched positions.now) doc.now
            (rows lists.store lists.first)) }
        ensures cells { IfOk result (λ lists. length lists.store ≤ edges_K automaton.now.graph doc.now (is_touched positions.now) + 1) }
        ensures weighs { OnOk result (WeighsWithin automaton.now.graph doc.now (is_touched positions.now) limit) }
        ensures cause { IfErr result (IsReadFault automaton.now.graph (is_touched positions.now) doc.now limit) }
        ensures steps { steps.new ≤ steps.old + rebuild self.old.kept automaton.now.graph doc.now (is_touched positions.now)
            + build automaton.now.graph doc.now (is_touched positions.now) }
    {
        if let Some(kept) = self.take(limit) {
            let table = KnownTable::take_up(automaton, kept);
            if let Ok(listed) = table.list(self.alloc, doc, positions, steps) {
                return Ok(self.keep(listed));
            }
        }
        let table = match KnownTable::new(self.alloc, automaton, limit, steps) {
            Ok(table) => table,
            Err(fault) => return Err(fault),
        };
        match table.list(self.alloc, doc, positions, steps) {
            Ok(listed) => Ok(self.keep(listed)),
            Err(fault) => Err(fault),
        }
    }
}
