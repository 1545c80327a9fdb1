//! From which states marks can still be taken.
ghost use Rattle.std.specs.Prelude.{◌≡◌, ℕ, ◌<◌, ◌↔◌, length, IfOk};
ghost use Rattle.span_core.specs.Lists.{Has};
ghost use Rattle.marked_automaton.specs.Reach.{IsFlagged};
ghost use Rattle.settled_states.specs.States.{AreSpent, LeadsToMarks, MayTakeMarks};

use crate::search::{Search, sources};
use marked_automaton::{Automaton, Stop, Way};
use span_core::OutOfMemory;
use std::alloc::Global;

/// For each state whether marks can still be taken from it, by some ways over any bytes: by a last way, or by an end. The states
/// without a flag are spent. The time is linear in the states, the ways and the ends.
pub fn unspent_states(alloc: Global, automaton: &Automaton) -> Result<Vec<bool>, OutOfMemory>
    ensures len { IfOk result (λ flags. length flags.items ≡ automaton.now.graph.states) }
    ensures exactly { IfOk result (λ flags. (q : ℕ) → IsFlagged flags.items q ↔ MayTakeMarks automaton.now.graph q) }
    ensures spent { IfOk result (λ flags. AreSpent automaton.now.graph (λ q. ¬ IsFlagged flags.items q)) }
{
    automaton.is_marked();
    let flags = leading_to_marks(
        alloc,
        automaton.states(),
        automaton.ways(),
        automaton.stops(),
    )?;
    Ok(flags)
}

/// For each state whether some of these ways lead from it to a state with marks.
fn leading_to_marks(
    alloc: Global,
    states: u32,
    ways: &[Way],
    stops: &[Stop],
) -> Result<Vec<bool>, OutOfMemory>
    requires froms { (y : Way) → Has ways.now y → y.from < states }
    requires tos { (y : Way) → Has ways.now y → y.to < states }
    requires stops { (x : Stop) → Has stops.now x → x.state < states }
    ensures len { IfOk result (λ flags. length flags.items ≡ states) }
    ensures exactly { IfOk result (λ flags. (q : ℕ) → IsFlagged flags.items q ↔ ((n : ℕ) × LeadsToMarks ways.now stops.now n q)) }
{
    let mut search = Search::new(alloc, states)?;
    search.find_by_ways(ways)?;
    search.find_by_stops(stops)?;
    let sources = sources(alloc, states, ways)?;
    search.follow_all(sources.as_slice())?;
    Ok(search.found)
}
