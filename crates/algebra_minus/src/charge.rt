//! What following one set with some markers takes from the effort.
//!
//! It takes so many steps for each thing that is looked at or kept, and altogether no more than the automaton of the
//! right side allows. That takes next to nothing away where no list names a state twice: a set has at most all its states,
//! each way is looked at once, and there are at most 256 parts, as each has a byte that no other has.
ghost use Rattle.std.specs.Prelude.{◌+◌, ◌≤◌};
ghost use Rattle.algebra_minus.specs.Steps.{partition_room};

use algebra::Effort;
use marked_automaton::Automaton;

/// What the parts of one partition cost at most, in steps, without their sets.
const STEPS_OF_PARTS: u64 = 26_000;

/// What a partition costs at most for each state of the automaton, in steps.
const STEPS_OF_STATE: u64 = 6_468;

/// What a partition costs at most for each way of the automaton, in steps.
const STEPS_OF_WAY: u64 = 259;

/// The most that following one set with some markers takes.
pub(crate) fn most_of(automaton: &Automaton) -> u64
    ensures { result ≤ partition_room automaton.now.graph }
{
    let states = u64::from(automaton.states()).saturating_mul(STEPS_OF_STATE);
    let ways = (automaton.ways().len() as u64).saturating_mul(STEPS_OF_WAY);
    STEPS_OF_PARTS.saturating_add(states).saturating_add(ways)
}

/// Takes these steps from the effort, but no more than there is room for.
pub(crate) fn charge(effort: &mut Effort, room: &mut u64, steps: u64)
    ensures effort { effort.new ≤ effort.old }
    ensures room { effort.old + room.new ≤ effort.new + room.old }
{
    if steps > *room {
        effort.spend(*room);
        *room = 0;
        return;
    }
    effort.spend(steps);
    *room -= steps;
}
