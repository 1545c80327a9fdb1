//! Layers that wait: where it is known how each of its sets is left (`way_exits`), the next place is searched for up to which each
//! of them leads back to itself.
//!
//! Up to there the layer is the same, whatever was under way on the way there; so what stands between need not be read.
ghost use Rattle.std.specs.Prelude.{◌≡◌, ◌≤◌, None, length, take, IfSome, IsTrue};
ghost use Rattle.span_core.specs.Lists.{Has};
ghost use Rattle.output_graph.specs.Graph.{Source, sources};
ghost use Rattle.numbered_lists.specs.Numbered.{set_at};
ghost use Rattle.way_exits.specs.Exits.{Knows, LeaveBy};
ghost use Rattle.one_pass.specs.Ahead.{KnowsWaiting};
ghost use Rattle.one_pass.specs.Passes.{AllLeadBack, AreGiven};

use crate::known::copied;
use output_graph::OutputGraph;
use set_table::Table;
use std::alloc::Global;
use way_exits::{Waiting, all_loop, are_home, put_all};

/// Fewer bytes are not searched.
const SHORT: usize = 128;

/// Nor are fewer than these, where the chain must first be worked out.
pub(crate) const LONG: usize = 1024;

/// A search costs as much as reading so many bytes, about.
const COST: usize = 128;

/// So many bytes may be lost at first, and again after a pause.
const FIRST_CREDIT: usize = 512;

/// So many bytes that were gained may be lost again at most.
const MOST_CREDIT: usize = 16_384;

/// Over so many bytes no search is made where searching gained nothing.
const PAUSE: usize = 65_536;

/// So many bytes are looked at by one search at first, and where one passed over few.
const FIRST_WINDOW: usize = 4_096;

/// And at most, where searches pass over all of them.
const MOST_WINDOW: usize = 1_048_576;

/// Of more ways than these no new layer is looked at.
const MOST_WAYS: usize = 1024;

/// Nor is a new layer with more sets or states in a set.
const FEW_STATES: usize = 8;

/// One look at ways is taken for so many bytes at most.
const SHARE: usize = 16;

/// So often each way is looked at for a chain or a text inside, about.
const LOOKS: usize = 32;

/// What is searched for where a layer waits.
#[derive(Drop)]
pub(crate) struct Ahead {
    alloc: Global,
    pub(crate) waiting: Option<Waiting>,
    /// How many looks at ways it took.
    spent: usize,
    /// How many bytes a search looks at.
    window: usize,
    /// How many bytes may be lost to searches that gain nothing.
    credit: usize,
    /// Up to where no search is made.
    paused: usize,
    /// Whether there were too few bytes to work out how the last layer is left.
    pub(crate) refused: bool,
}

impl Ahead {
    /// Nothing has been worked out.
    pub(crate) fn new(alloc: Global) -> Ahead
        ensures { result.waiting ≡ None }
    {
        Ahead {
            alloc,
            waiting: None,
            spent: 0,
            window: FIRST_WINDOW,
            credit: FIRST_CREDIT,
            paused: 0,
            refused: false,
        }
    }

    /// Over how many bytes at the front of these, which begin at a position, each set of the graph's layer leads back to
    /// itself, as far as a search tells; 0 where none is made.
    pub(crate) fn passed(
        &mut self,
        table: &Table<'_>,
        graph: &OutputGraph,
        at: usize,
        bytes: &[u8],
    ) -> usize
        requires given { AreGiven table.now graph.now }
        requires fresh { graph.now.stepped ≡ 0 }
        requires waits { KnowsWaiting table.now.graph.ways self.old.waiting }
        ensures waits { KnowsWaiting table.now.graph.ways self.new.waiting }
        ensures within { result ≤ length bytes.now }
        ensures back { AllLeadBack table.now graph.now (take result bytes.now) }
    {
        self.refused = !are_long(&self.waiting, table, graph, at, bytes);
        if self.refused {
            return 0;
        }
        self.work_out(table, graph, at.saturating_add(bytes.len()));
        if self.is_paused(at) {
            return 0;
        }
        let (front, _) = bytes.split_at(bytes.len().min(self.window));
        let over = passed_by(&self.waiting, table, graph, front);
        self.count(at, over);
        over
    }

    /// Goes on where positions begin at 0 again: what has been worked out is kept, and no search pauses.
    pub(crate) fn begin_again(&mut self)
        ensures { self.new.waiting ≡ self.old.waiting }
    {
        self.spent = 0;
        self.paused = 0;
    }

    /// Whether no search is made at a position, since searching gained nothing.
    pub(crate) fn is_paused(&self, at: usize) -> bool {
        at < self.paused
    }

    /// Works out how the graph's layer is left, unless it is known or would cost too much for so many bytes.
    fn work_out(&mut self, table: &Table<'_>, graph: &OutputGraph, bytes: usize)
        requires given { AreGiven table.now graph.now }
        requires fresh { graph.now.stepped ≡ 0 }
        requires waits { KnowsWaiting table.now.graph.ways self.old.waiting }
        ensures waits { KnowsWaiting table.now.graph.ways self.new.waiting }
    {
        if is_known(&self.waiting, table, graph) {
            return;
        }
        let spent = table
            .ways()
            .len()
            .saturating_mul(LOOKS)
            .saturating_add(self.spent);
        if spent > bytes / SHARE {
            self.refused = true;
            return;
        }
        self.spent = spent;
        match waiting_of(self.alloc, table, graph) {
            Some(waiting) => self.waiting = Some(waiting),
            None => {}
        }
    }

    /// Counts a search at a position that passed over so many bytes: whether it gained more than it cost, and how many bytes
    /// the next one looks at.
    fn count(&mut self, at: usize, over: usize)
        ensures { self.new.waiting ≡ self.old.waiting }
    {
        if over < COST {
            self.window = FIRST_WINDOW;
        } else if over >= self.window / 2 {
            self.window = self.window.saturating_mul(4).min(MOST_WINDOW);
        }
        let credit = self.credit.saturating_add(over).min(MOST_CREDIT);
        if credit >= COST {
            self.credit = credit - COST;
            return;
        }
        self.credit = FIRST_CREDIT;
        self.paused = at.saturating_add(PAUSE);
    }
}

/// As `Ahead::passed`, by what is known.
fn passed_by(
    waiting: &Option<Waiting>,
    table: &Table<'_>,
    graph: &OutputGraph,
    bytes: &[u8],
) -> usize
    requires given { AreGiven table.now graph.now }
    requires fresh { graph.now.stepped ≡ 0 }
    requires waits { KnowsWaiting table.now.graph.ways waiting.now }
    ensures within { result ≤ length bytes.now }
    ensures back { AllLeadBack table.now graph.now (take result bytes.now) }
{
    match waiting {
        Some(waiting) => passed_from(waiting, table, graph, bytes),
        None => 0,
    }
}

/// As `passed_by`, where something is known.
fn passed_from(waiting: &Waiting, table: &Table<'_>, graph: &OutputGraph, bytes: &[u8]) -> usize
    requires given { AreGiven table.now graph.now }
    requires fresh { graph.now.stepped ≡ 0 }
    requires waits { LeaveBy table.now.graph.ways waiting.now.states.items waiting.now.exit }
    ensures within { result ≤ length bytes.now }
    ensures back { AllLeadBack table.now graph.now (take result bytes.now) }
{
    table.is_table();
    if !knows_layer(waiting, table, graph) {
        return 0;
    }
    waiting.next_place(bytes)
}

/// Whether the layer may wait: it has few sets of few states, and each of these loops on every byte, or is entered from one that
/// does. Where there are many ways it is not looked at.
pub(crate) fn waits(table: &Table<'_>, graph: &OutputGraph) -> bool
    requires given { AreGiven table.now graph.now }
    requires fresh { graph.now.stepped ≡ 0 }
{
    let ways = table.ways();
    if ways.len() > MOST_WAYS || graph.layer_len() > FEW_STATES {
        return false;
    }
    for k in 0..graph.layer_len() {
        let states = table.members(graph.set_at(k));
        if states.len() > FEW_STATES || !are_home(ways, states) {
            return false;
        }
    }
    true
}

/// Whether there are enough bytes for a search, with those that were read, where the chain must first be worked out.
fn are_long(
    waiting: &Option<Waiting>,
    table: &Table<'_>,
    graph: &OutputGraph,
    at: usize,
    bytes: &[u8],
) -> bool
    requires given { AreGiven table.now graph.now }
    requires fresh { graph.now.stepped ≡ 0 }
{
    if bytes.len() < SHORT {
        return false;
    }
    at.saturating_add(bytes.len()) >= LONG || is_known(waiting, table, graph)
}

/// Whether it is known how the layer is left.
pub(crate) fn is_known(waiting: &Option<Waiting>, table: &Table<'_>, graph: &OutputGraph) -> bool
    requires given { AreGiven table.now graph.now }
    requires fresh { graph.now.stepped ≡ 0 }
{
    match waiting {
        Some(waiting) => knows_layer(waiting, table, graph),
        None => false,
    }
}

/// Whether it is known how each set of the layer is left.
fn knows_layer(waiting: &Waiting, table: &Table<'_>, graph: &OutputGraph) -> bool
    requires given { AreGiven table.now graph.now }
    requires fresh { graph.now.stepped ≡ 0 }
    ensures { IsTrue result → (x : Source) → Has (sources graph.now) x → Knows waiting.now (set_at table.now.sets x.set) }
{
    for k in 0..graph.layer_len() {
        if !waiting.knows(table.members(graph.set_at(k))) {
            return false;
        }
    }
    true
}

/// The states of the layer and how they are left, if it can be searched for: all of them wait, or the layer comes home.
fn waiting_of(alloc: Global, table: &Table<'_>, graph: &OutputGraph) -> Option<Waiting>
    requires given { AreGiven table.now graph.now }
    requires fresh { graph.now.stepped ≡ 0 }
    ensures { IfSome result (λ w. LeaveBy table.now.graph.ways w.states.items w.exit) }
{
    let states = match states_of(alloc, table, graph) {
        Some(states) => states,
        None => return None,
    };
    if all_loop(table.ways(), states.as_slice()) {
        return Waiting::of_loops(alloc, table.ways(), states);
    }
    if !waits(table, graph) {
        return None;
    }
    match sets_of(alloc, table, graph) {
        Some(sets) => Waiting::of_homes(alloc, table.ways(), states, sets),
        None => None,
    }
}

/// The sets of the layer.
fn sets_of(alloc: Global, table: &Table<'_>, graph: &OutputGraph) -> Option<Vec<Vec<u32>>>
    requires given { AreGiven table.now graph.now }
    requires fresh { graph.now.stepped ≡ 0 }
{
    let mut sets = Vec::new(alloc);
    for k in 0..graph.layer_len() {
        let Ok(set) = copied(alloc, table.members(graph.set_at(k))) else {
            return None;
        };
        match sets.push(set) {
            Ok(()) => {}
            Err(_) => return None,
        }
    }
    Some(sets)
}

/// The states of the layer's sets, if they are few.
fn states_of(alloc: Global, table: &Table<'_>, graph: &OutputGraph) -> Option<Vec<u32>>
    requires given { AreGiven table.now graph.now }
    requires fresh { graph.now.stepped ≡ 0 }
{
    let mut states = Vec::new(alloc);
    for k in 0..graph.layer_len() {
        if !put_all(&mut states, table.members(graph.set_at(k))) {
            return None;
        }
    }
    Some(states)
}
