//! The search for the next byte of a piece that may change something, and what is kept of it between the pieces.
ghost use Rattle.std.specs.Prelude.{◌≡◌, ℕ, ◌<◌, ◌≤◌, None, length, slice_index, take};
ghost use Rattle.one_pass.specs.Ahead.{KnowsWaiting};
ghost use Rattle.one_pass.specs.Passes.{AllLeadBack, AllStayOn, AreGiven};

use crate::places::stays_of;
use crate::waiting::Ahead;
use byte_runs::Skipper;
use output_graph::OutputGraph;
use set_table::Table;
use std::alloc::Global;

/// After so many bytes that left the layer as it was, the next one that may change something is searched for.
pub(crate) const QUIET: u32 = 16;

/// Behind a byte that leads back to where a search is made at once, the layer counts as unchanged for so many bytes.
const BACK: u32 = u32::MAX;

/// A search that passed over so many bytes went far.
pub(crate) const FAR: usize = 32;

/// The search for the next byte that may change something. What it works out of the ways stays true as the table grows.
#[derive(Drop)]
pub(crate) struct Search {
    pub(crate) skipper: Skipper,
    pub(crate) ahead: Ahead,
    /// For how many bytes the layer counts as unchanged.
    pub(crate) quiet: u32,
    /// The layer that is searched as soon as it comes back: in which the last search went far, or which waits.
    pub(crate) far: Option<usize>,
    /// Whether that layer waits, and it is known how it is left, or there were too few bytes to work it out.
    pub(crate) waits: bool,
    /// Up to where that layer is not searched at once, since there were too few bytes.
    pub(crate) later: usize,
    /// Whether the layer is new, and may wait.
    pub(crate) fresh: bool,
}

impl Search {
    /// Nothing has been searched for: the first search is made at once.
    pub(crate) fn new(alloc: Global) -> Search
        ensures { result.ahead.waiting ≡ None }
    {
        Search {
            skipper: Skipper::new(),
            ahead: Ahead::new(alloc),
            quiet: QUIET,
            far: None,
            waits: false,
            later: 0,
            fresh: false,
        }
    }

    /// Goes on where the pass stands at position 0 again.
    pub(crate) fn begin_again(&mut self)
        ensures { self.new.ahead.waiting ≡ self.old.ahead.waiting }
    {
        self.ahead.begin_again();
        self.later = 0;
    }

    /// For how many bytes the layer in which a piece begins, at a position, counts as unchanged: for enough, where it is
    /// searched at once.
    pub(crate) fn quiet_in(&self, layer: Option<usize>, at: usize) -> u32 {
        match (layer, self.far) {
            (Some(layer), Some(kept)) if layer == kept => self.quiet_back(at),
            _ => self.quiet,
        }
    }

    /// For how many bytes the layer counts as unchanged behind one more, at a position: at once for enough, where it comes
    /// back to one that is searched at once.
    #[inline(always)]
    pub(crate) fn quiet_at(
        &self,
        before: Option<usize>,
        after: Option<usize>,
        quiet: u32,
        at: usize,
    ) -> u32 {
        if before == after {
            return quiet.saturating_add(1);
        }
        match (after, self.far) {
            (Some(layer), Some(kept)) if layer == kept => self.quiet_back(at),
            _ => 0,
        }
    }

    /// For how many bytes the layer that is searched at once counts as unchanged where it comes back: for none, if no search
    /// is made at this position, since searching gained nothing, or there were too few bytes.
    fn quiet_back(&self, at: usize) -> u32 {
        if self.waits && (at < self.later || self.ahead.is_paused(at)) {
            0
        } else {
            BACK
        }
    }
}

/// Over how many bytes at the front of these, which begin at a position, the layer stays or comes back to itself, as far as a
/// search tells.
pub(crate) fn bytes_over(
    table: &Table<'_>,
    graph: &OutputGraph,
    search: &mut Search,
    at: usize,
    bytes: &[u8],
) -> usize
    requires given { AreGiven table.now graph.now }
    requires fresh { graph.now.stepped ≡ 0 }
    requires waits { KnowsWaiting table.now.graph.ways search.old.ahead.waiting }
    ensures within { result ≤ length bytes.now }
    ensures back { AllLeadBack table.now graph.now (take result bytes.now) }
    ensures waits { KnowsWaiting table.now.graph.ways search.new.ahead.waiting }
{
    let over = search.ahead.passed(table, graph, at, bytes);
    if over > 0 {
        return over;
    }
    still_bytes(table, graph, &mut search.skipper, bytes)
}

/// How many bytes at the front of a piece change nothing.
fn still_bytes(table: &Table<'_>, graph: &OutputGraph, skipper: &mut Skipper, piece: &[u8]) -> usize
    requires given { AreGiven table.now graph.now }
    requires fresh { graph.now.stepped ≡ 0 }
    ensures within { result ≤ length piece.now }
    ensures still { (k : ℕ) → k < result → AllStayOn table.now graph.now (slice_index piece.now k) }
{
    let stays = stays_of(table, graph);
    skipper.first_outside(&stays, piece).unwrap_or(piece.len())
}
