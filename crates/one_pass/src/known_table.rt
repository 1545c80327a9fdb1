//! A table with what is known of its layers, which serves one document after another.
//!
//! What a table answered is determined by the automaton alone, and what is known of its layers by the table; so both serve each
//! document, and only their size grows.
ghost use Rattle.std.specs.Prelude.{◌≡◌, ℕ, ◌+◌, ◌^◌, ◌≤◌, length, IfErr, IfOk, OnOk};
ghost use Rattle.std.specs.Bool.{OnTrue};
ghost use Rattle.span_core.specs.Intervals.{Covers};
ghost use Rattle.automaton_reading.specs.Reading.{edges_K};
ghost use Rattle.output_graph.specs.Order.{AreInOrder};
ghost use Rattle.output_graph.specs.Rows.{rows};
ghost use Rattle.set_table.specs.Laid.{taken_up};
ghost use Rattle.set_table.specs.Tabled.{IsRefusal, fresh, weight};
ghost use Rattle.one_pass.specs.Builds.{IsNew, build};
ghost use Rattle.one_pass.specs.Faults.{IsReadFault};
ghost use Rattle.one_pass.specs.Passes.{HasKept};
ghost use Rattle.one_pass.specs.Places.{AreReadWords, is_touched};
ghost use Rattle.one_pass.specs.Readings.{IsKeptOf};
ghost use Rattle.one_pass.specs.Weights.{WeighsWithin};

use crate::known::{Known, MOST_WORDS};
use crate::pass::{Pass, give_up, give_up_table};
use crate::places::EndedPass;
use marked_automaton::Automaton;
use output_graph::RowLists;
use set_table::{Table, TableFault, TableState};
use span_core::{OutOfMemory, Steps, Touched};
use std::alloc::Global;
use std::marker::Model;
use std::sync::ledger::Ledger;

/// A table with what is known of its layers. It is seen as the table.
#[derive(Drop)]
pub struct KnownTable<'a> {
    table: Table<'a>,
    limit: u64,
    known: Known,
}

impl<'a> Model for KnownTable<'a> {
    ghost use Rattle.set_table.specs.Tabled.{Tabled};
    ghost use Rattle.set_table.specs.Codes.{tabled_code};

    ghost Value = { Tabled };

    ghost coded = { tabled_code };

    ghost use Rattle.std.specs.Prelude.{◌≡◌};
    ghost use Rattle.one_pass.specs.Known.{Knows};

    ghost view = { λ t. t.table };

    ghost invariant = { λ t. (t.table.limit ≡ t.limit) × Knows t.table t.known };
}

/// A table with what is known of its layers, laid down, with its limit: `KnownTable::lay_down` gives it, and
/// `KnownTable::take_up` goes on with it.
#[derive(Drop)]
pub struct KeptTable {
    pub(crate) state: TableState,
    pub(crate) limit: u64,
    pub(crate) known: Known,
}

/// The lists of the words of a document, and the table that it was read by.
#[derive(Drop)]
pub struct Listed<'a> {
    pub lists: RowLists,
    pub table: KnownTable<'a>,
}

impl<'a> KnownTable<'a> {
    /// A new table, of whose layers nothing is known. 1 step. `TableFault::Full` comes exactly where the set of the start states
    /// weighs more than the limit, and tells its weight.
    pub fn new<L: Ledger>(
        alloc: Global,
        automaton: &'a Automaton,
        limit: u64,
        steps: &mut Steps<L>,
    ) -> Result<KnownTable<'a>, TableFault>
        requires limit { limit ≤ 100000000 }
        ensures new { IfOk result (λ t. t ≡ fresh automaton.now.graph limit) }
        ensures refused { IfErr result (IsRefusal (fresh automaton.now.graph limit)) }
        ensures steps { steps.new ≡ steps.old + 1 }
    {
        match Table::new(alloc, automaton, limit, steps) {
            Ok(table) => Ok(KnownTable {
                table,
                limit,
                known: Known::new(alloc, MOST_WORDS),
            }),
            Err(fault) => Err(fault),
        }
    }

    /// The words with which a document is read at some positions, each once, in block order, and the table, which holds then what
    /// that asked for. The steps are those of a new table.
    ///
    /// `TableFault::Full` comes where all that the table holds and what this reading asks for weigh more than its limit: so only if
    /// the table was new is it the weight of this reading alone.
    pub fn list<L: Ledger>(
        self,
        alloc: Global,
        doc: &[u8],
        positions: &Touched,
        steps: &mut Steps<L>,
    ) -> Result<Listed<'a>, TableFault>
        requires few { length doc.now ≤ 2 ^ 28 }
        requires within { (q : ℕ) → Covers positions.now q → q ≤ length doc.now }
        ensures words { IfOk result (λ r. AreReadWords self.entry.graph (is_touched positions.now) doc.now
            (rows r.lists.store r.lists.first)) }
        ensures order { IfOk result (λ r. AreInOrder (rows r.lists.store r.lists.first)) }
        ensures kept { IfOk result (λ r. HasKept self.entry r.table) }
        ensures weighs { OnOk result (WeighsWithin self.entry.graph doc.now (is_touched positions.now) self.entry.limit) }
        ensures cells { IfOk result (λ r. length r.lists.store ≤ edges_K self.entry.graph doc.now (is_touched positions.now) + 1) }
        ensures steps { steps.new + 1 ≤ steps.old + build self.entry.graph doc.now (is_touched positions.now) }
        ensures cause { IfErr result (λ e. IsNew self.entry.graph self.entry →
            IsReadFault self.entry.graph (is_touched positions.now) doc.now self.entry.limit e) }
    {
        let KnownTable {
            mut table,
            limit,
            known,
        } = self;
        let mut pass = match Pass::begin_with(alloc, known, &table, steps) {
            Ok(pass) => pass,
            Err(OutOfMemory) => {
                give_up_table(table);
                return Err(TableFault::OutOfMemory);
            }
        };
        if let Err(fault) = pass.read_parts(&mut table, doc, positions.parts(), steps) {
            give_up(table, pass);
            return Err(fault);
        }
        let EndedPass { graph, known } = match pass.end_with(&mut table, steps) {
            Ok(ended) => ended,
            Err(fault) => {
                give_up_table(table);
                return Err(fault);
            }
        };
        Ok(Listed {
            lists: graph.turn(steps),
            table: KnownTable {
                table,
                limit,
                known,
            },
        })
    }

    /// Whether it weighs no more than `most`, in cells as `Table::weight` counts them, and more of whole layers may be kept.
    pub fn may_grow(&self, most: u64) -> bool
        ensures light { OnTrue result (weight self.now ≤ most) }
    {
        self.table.weight() <= most && self.known.has_room()
    }

    /// Lays the table down, so that its automaton is free. It takes no memory.
    pub fn lay_down(self) -> KeptTable
        ensures kept { IsKeptOf self.entry.graph result }
        ensures same { taken_up self.entry.graph result.state ≡ self.entry }
    {
        let KnownTable {
            table,
            limit,
            known,
        } = self;
        KeptTable {
            state: table.lay_down(),
            limit,
            known,
        }
    }

    /// The table that was laid down, as it was; its automaton was equal to this one. It takes no memory.
    pub fn take_up(automaton: &'a Automaton, kept: KeptTable) -> KnownTable<'a>
        requires { IsKeptOf automaton.now.graph kept }
        ensures { result ≡ taken_up automaton.now.graph kept.state }
    {
        let KeptTable {
            state,
            limit,
            known,
        } = kept;
        KnownTable {
            table: Table::take_up(automaton, state),
            limit,
            known,
        }
    }
}

impl KeptTable {
    /// The limit of the table's weight.
    pub fn limit(&self) -> u64
        ensures { result ≡ self.now.limit }
    {
        self.limit
    }
}
