//! Beginning the answers of a query on a document: where it is read, reading, and going to the first row wanted.
//!
//! Every count and weight is said of the query's automaton with nothing left out, which the query determines; the one
//! that is read is a reduct, and costs no more.
ghost use Rattle.std.specs.Prelude.{◌≡◌, ℕ, ◌+◌, ◌^◌, ◌≤◌, ◌⊎◌, Bool, length, IfErr, IfOk, IsErrOf, OnOk};
ghost use Rattle.std.specs.Option.{ForSome, IfSome, option_copied};
ghost use Rattle.spanner_model.specs.Answers.{IsRest};
ghost use Rattle.spanner_model.specs.ExprView.{query_of};
ghost use Rattle.query_automaton.specs.CompiledQuery.{IsCompiled};
ghost use Rattle.spanner_engine.specs.Begun.{AreRead, IsBeginFault, IsPast, IsReadWithin, KeepsOther, begin_steps, cells_sought, counted, row_kept};
ghost use Rattle.spanner_engine.specs.Caching.{IsCacheOf, rebuild};
ghost use Rattle.spanner_engine.specs.Filtering.{AreAtomsWithin};
ghost use Rattle.spanner_engine.specs.Left.{AreLeft};
ghost use Rattle.spanner_engine.specs.declared.beginning.BeginFault.TheVariants.{CursorOther, CursorPlace};

use crate::Answers;
use crate::cache::Cache;
use crate::place::{is_past, other_length};
use crate::positions::positions_read;
use enumerator::Enumerator;
use marked_automaton::Automaton;
use query_automaton::Compiled;
use segment_filter::FilterFault;
use set_table::TableFault;
use span_core::{Kept, Steps};
use spanner_model::Query;
use std::alloc::Global;
use std::sync::ledger::Ledger;
use thiserror::Error;

/// How a document is read.
#[derive(Clone, Copy, Debug, PartialEq, Eq)]
pub struct Options {
    /// Whether it is read only at the positions that some atom of the query touches. A query in whose text a difference stands
    /// is read at all positions.
    pub filter: bool,
    /// The greatest weight of the filter of an atom, and of the table that it is read with, from 1 to 100,000,000.
    pub limit: u64,
}

/// Why no answers are begun; the first that applies is told.
#[derive(Clone, Copy, Debug, PartialEq, Eq, Error)]
pub enum BeginFault {
    /// The cursor keeps another length than the document's: it keeps `kept`, and the document has `found` bytes.
    #[error("the cursor is of a document of {kept} bytes, and this one has {found}")]
    CursorOther { kept: u32, found: u32 },
    /// The cursor keeps no length, and a span of its row ends past the document.
    #[error("a span of the cursor ends past the document")]
    CursorPlace,
    /// What the two readings of some atom meet weighs more than the limit: so much.
    #[error("the filter of an atom would weigh {weight}, more than the limit")]
    Filter { weight: u64 },
    /// The table weighs more than the limit: so much.
    #[error("the table would weigh {weight}, more than the limit")]
    Table { weight: u64 },
    /// Want of memory.
    #[error("out of memory")]
    OutOfMemory,
}

/// The answers of a compiled query on a document that stand after the row that `after` keeps, which need not be an
/// answer, or all of them. All work that grows with the document is done here.
///
/// With `options.filter` the document is read only at the positions that some atom of the query's text
/// touches: each atom of each `let`, used or not, and of the body. Where a difference stands in that text it is read at all
/// positions, and no atom is weighed.
///
/// `CursorOther` comes exactly where `after` keeps a length that is not the document's, and `CursorPlace` exactly where
/// it keeps none and a span of its row ends past the document; no step is taken then.
/// `Filter` comes only with the filter and without differences, where what the two readings of some atom meet weighs more than the
/// limit; `Table` only where reading the document at these positions weighs more than the limit, counted on
/// the query's automaton with nothing left out. The weight that either tells is more than the limit, and no
/// more than what is weighed. Where there are answers, what reading the document must hold weighs no more than the
/// limit, counted on the automaton that is read: the sets that are reached and their look-ups, but those of bytes on
/// which a set stays and what stands between two places at which each set is the same, which may be passed over.
///
/// The steps are counted on the same automaton: 8 for each position and one more, 8 for each edge, 1 and
/// the automaton's size for each look-up; and with the filter what it takes to find the positions of each atom. To
/// go to the place after a row takes one step for each edge and one more, which is less than the `2v + 1` for
/// each cell and one more that are allowed with v variables.
pub fn begin<L: Ledger>(
    alloc: Global,
    compiled: &Compiled<'_>,
    doc: &[u8],
    after: Option<&Kept>,
    options: Options,
    steps: &mut Steps<L>,
) -> Result<Answers, BeginFault>
    requires few { length doc.now ≤ 2 ^ 28 }
    requires row { IfSome (option_copied after) (λ kept. length kept.row ≡ length compiled.now.automaton.names) }
    requires limit { options.limit ≤ 100000000 }
    ensures left { IfOk result (λ a. AreLeft (query_of compiled.now.query) doc.now compiled.now.automaton.names
        (row_kept (option_copied after.entry)) a.rest) }
    ensures variables { IfOk result (λ a. a.variables ≡ length compiled.now.automaton.names) }
    ensures other { (kept : ℕ) → KeepsOther (length doc.now) (option_copied after.entry) kept →
        IsErrOf result (CursorOther kept (length doc.now)) }
    ensures place { IsPast (length doc.now) (option_copied after.entry) → IsErrOf result CursorPlace }
    ensures still { (kept found : ℕ) → IsErrOf result CursorPlace ⊎ IsErrOf result (CursorOther kept found) → steps.new ≡ steps.old }
    ensures fault { IfErr result (IsBeginFault (query_of compiled.now.query) doc.now options.filter
        (option_copied after.entry) options.limit) }
    ensures weighs { OnOk result (IsReadWithin compiled.now.automaton.graph (query_of compiled.now.query) doc.now
        options.filter options.limit) }
    ensures atoms { OnOk result (AreAtomsWithin (query_of compiled.now.query) doc.now options.filter options.limit) }
    ensures steps { (K : ℕ → Bool) → AreRead options.filter (query_of compiled.now.query) doc.now K →
        steps.new ≤ steps.old + begin_steps options.filter (query_of compiled.now.query) doc.now K (row_kept (option_copied after.entry)) }
{
    begin_by(
        alloc,
        compiled.query(),
        compiled.automaton(),
        doc,
        after,
        options,
        steps,
    )
}

/// The same of a query and an automaton that it was compiled to, for a caller that keeps the two side by side: what
/// `Compiled` has as its invariant is asked here.
pub fn begin_by<L: Ledger>(
    alloc: Global,
    query: &Query,
    automaton: &Automaton,
    doc: &[u8],
    after: Option<&Kept>,
    options: Options,
    steps: &mut Steps<L>,
) -> Result<Answers, BeginFault>
    requires compiled { IsCompiled (query_of query.now) automaton.now }
    requires few { length doc.now ≤ 2 ^ 28 }
    requires row { IfSome (option_copied after) (λ kept. length kept.row ≡ length automaton.now.names) }
    requires limit { options.limit ≤ 100000000 }
    ensures left { IfOk result (λ a. AreLeft (query_of query.now) doc.now automaton.now.names
        (row_kept (option_copied after.entry)) a.rest) }
    ensures variables { IfOk result (λ a. a.variables ≡ length automaton.now.names) }
    ensures other { (kept : ℕ) → KeepsOther (length doc.now) (option_copied after.entry) kept →
        IsErrOf result (CursorOther kept (length doc.now)) }
    ensures place { IsPast (length doc.now) (option_copied after.entry) → IsErrOf result CursorPlace }
    ensures still { (kept found : ℕ) → IsErrOf result CursorPlace ⊎ IsErrOf result (CursorOther kept found) → steps.new ≡ steps.old }
    ensures fault { IfErr result (IsBeginFault (query_of query.now) doc.now options.filter (option_copied after.entry) options.limit) }
    ensures weighs { OnOk result (IsReadWithin automaton.now.graph (query_of query.now) doc.now options.filter options.limit) }
    ensures atoms { OnOk result (AreAtomsWithin (query_of query.now) doc.now options.filter options.limit) }
    ensures steps { (K : ℕ → Bool) → AreRead options.filter (query_of query.now) doc.now K →
        steps.new ≤ steps.old + begin_steps options.filter (query_of query.now) doc.now K (row_kept (option_copied after.entry)) }
{
    let mut cache = Cache::new(alloc, 0);
    begin_with(query, automaton, &mut cache, doc, after, options, steps)
}

/// The same with a cache, which belongs to the automaton: what it keeps of documents before serves this one, and what is found
/// out now serves the next.
///
/// The answers and refusals are those of `begin_by`: if a document is refused over what is kept, it is read once more by a new
/// table, so that the weight of a refusal is of this document alone. That may take the steps of reading it twice.
pub fn begin_with<L: Ledger>(
    query: &Query,
    automaton: &Automaton,
    cache: &mut Cache,
    doc: &[u8],
    after: Option<&Kept>,
    options: Options,
    steps: &mut Steps<L>,
) -> Result<Answers, BeginFault>
    requires compiled { IsCompiled (query_of query.now) automaton.now }
    requires cache { IsCacheOf automaton.now.graph cache.old }
    requires few { length doc.now ≤ 2 ^ 28 }
    requires row { IfSome (option_copied after) (λ kept. length kept.row ≡ length automaton.now.names) }
    requires limit { options.limit ≤ 100000000 }
    ensures cache { IsCacheOf automaton.now.graph cache.new }
    ensures left { IfOk result (λ a. AreLeft (query_of query.now) doc.now automaton.now.names
        (row_kept (option_copied after.entry)) a.rest) }
    ensures variables { IfOk result (λ a. a.variables ≡ length automaton.now.names) }
    ensures other { (kept : ℕ) → KeepsOther (length doc.now) (option_copied after.entry) kept →
        IsErrOf result (CursorOther kept (length doc.now)) }
    ensures place { IsPast (length doc.now) (option_copied after.entry) → IsErrOf result CursorPlace }
    ensures still { (kept found : ℕ) → IsErrOf result CursorPlace ⊎ IsErrOf result (CursorOther kept found) → steps.new ≡ steps.old }
    ensures fault { IfErr result (IsBeginFault (query_of query.now) doc.now options.filter (option_copied after.entry) options.limit) }
    ensures weighs { OnOk result (IsReadWithin automaton.now.graph (query_of query.now) doc.now options.filter options.limit) }
    ensures atoms { OnOk result (AreAtomsWithin (query_of query.now) doc.now options.filter options.limit) }
    ensures steps { (K : ℕ → Bool) → AreRead options.filter (query_of query.now) doc.now K →
        steps.new ≤ steps.old + rebuild cache.old.kept (counted (query_of query.now)) doc.now K
        + begin_steps options.filter (query_of query.now) doc.now K (row_kept (option_copied after.entry)) }
{
    automaton.is_marked();
    let found = doc.len() as u32;
    if let Some(kept) = other_length(after, found) {
        return Err(BeginFault::CursorOther { kept, found });
    }
    if is_past(after, doc.len()) {
        return Err(BeginFault::CursorPlace);
    }
    let positions = match positions_read(cache.alloc(), query, doc, options, steps) {
        Ok(positions) => positions,
        Err(FilterFault::Full { weight }) => return Err(BeginFault::Filter { weight }),
        Err(FilterFault::OutOfMemory) => return Err(BeginFault::OutOfMemory),
    };
    let lists = match cache.lists(automaton, doc, &positions, options.limit, steps) {
        Ok(lists) => lists,
        Err(TableFault::Full { weight }) => return Err(BeginFault::Table { weight }),
        Err(TableFault::OutOfMemory) => return Err(BeginFault::OutOfMemory),
    };
    let rows = Enumerator::new(lists, automaton.vars().len());
    Ok(Answers::over(from_row(rows, after, steps)))
}

/// The enumerator at the first row after the one that is kept, or where it stands where none is.
fn from_row<L: Ledger>(
    mut rows: Enumerator,
    after: Option<&Kept>,
    steps: &mut Steps<L>,
) -> Enumerator
    requires row { IfSome (option_copied after) (λ kept. length kept.row ≡ rows.variables) }
    requires first { rows.rest ≡ rows.whole }
    ensures variables { result.variables ≡ rows.variables }
    ensures rest { IsRest (row_kept (option_copied after.entry)) rows.whole result.rest }
    ensures steps { steps.new ≤ steps.old + cells_sought rows.cells (row_kept (option_copied after.entry)) }
{
    let Some(kept) = after else {
        return rows;
    };
    rows.seek(&kept.row, steps);
    rows
}
