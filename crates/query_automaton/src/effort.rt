//! What compiling a query may cost.
ghost use Rattle.std.specs.Prelude.{◌≡◌, ◌+◌, ◌*◌, ◌≤◌, IfErr, IfOk, OnErr, OnOk};
ghost use Rattle.marked_automaton.specs.Automaton.{IsMarked, size};
ghost use Rattle.query_automaton.specs.declared.effort.TheConstants.{MOST_HELD};
ghost use Rattle.query_automaton.specs.Held.{IsHoldFault};

use crate::fault::CompileFault;
use algebra::Effort;
use marked_automaton::{Automaton, MOST_STATES, MOST_WAYS};

/// The most steps that compiling one query takes, some seconds of work, so that no text of a query takes
/// minutes. Where they are spent, `CompileFault::Spent` is told, which `compile` answers as want of memory.
pub const MOST_STEPS: u64 = 2_000_000_000;

/// The most states, ways and ends that are held at one time while a query is compiled: those of its `let`s,
/// and of the parts in progress that wait for the next part of a union or join. They are some 350 MB. Where
/// there are more, `CompileFault::Held` is told, which `compile` answers as want of memory.
pub const MOST_HELD: u64 = 8_000_000;

/// What each state, way and end of an automaton costs that is made, in steps.
const STEPS_TO_MAKE: u64 = 64;

/// How many states, ways and ends an automaton has.
pub fn size_of(automaton: &Automaton) -> u64
    ensures marked { IsMarked automaton.now }
    ensures most { result ≤ size automaton.now.graph }
{
    u64::from(automaton.states())
        .saturating_add(automaton.ways().len() as u64)
        .saturating_add(automaton.stops().len() as u64)
}

/// What is held with so many states, ways and ends more. Refused where that is more than `MOST_HELD`.
pub fn hold(held: u64, more: u64) -> Result<u64, CompileFault>
    ensures all { IfOk result (λ all. (all ≡ held + more) × (all ≤ MOST_HELD)) }
    ensures fault { IfErr result (IsHoldFault (held + more)) }
{
    let count = held.saturating_add(more);
    if count > MOST_HELD {
        return Err(CompileFault::Held { count });
    }
    Ok(count)
}

/// Spends what it costs to make this automaton. Refused where nothing is left.
pub fn spend(effort: &mut Effort, automaton: &Automaton) -> Result<(), CompileFault>
    ensures marked { IsMarked automaton.now }
    ensures fault { IfErr result (λ fault. fault ≡ CompileFault.Spent) }
    ensures spent { OnErr result (effort.old ≤ 64 * size automaton.now.graph) }
    ensures steps { OnOk result (effort.old ≤ effort.new + 64 * size automaton.now.graph) }
{
    effort.spend(size_of(automaton).saturating_mul(STEPS_TO_MAKE));
    if effort.is_spent() {
        return Err(CompileFault::Spent);
    }
    Ok(())
}
