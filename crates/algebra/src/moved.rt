//! Automata put into larger ones, behind states that these have.
ghost use Rattle.std.specs.Prelude.{◌≡◌, ℕ, ◌+◌, ◌≤◌, ◌<◌, ◌↔◌, ◌⊎◌, OnOk, IfErr, length, ◌++◌, map};
ghost use Rattle.span_core.specs.Lists.{Has};
ghost use Rattle.marked_automaton.specs.declared.TheConstants.{MOST_STATES, MOST_WAYS};
ghost use Rattle.marked_automaton.specs.declared.fault.SizeFault.TheVariants.{OutOfMemory as WantOfMemory};
ghost use Rattle.marked_automaton.specs.Automaton.{HasGraphOf, IsMarked, IsWhole, idle_way};
ghost use Rattle.algebra.specs.Moved.{HasMovedIdle, IsWithPart, IsWithWays};
ghost use Rattle.algebra.specs.Operations.{moved_stop};

use marked_automaton::{Automaton, SizeFault, Stop, Way};
use span_core::OutOfMemory;

/// Adds the ways of a part, moved.
pub(crate) fn add_ways(whole: &mut Automaton, part: &Automaton, by: u32) -> Result<(), SizeFault>
    requires names { whole.old.names ≡ part.now.names }
    requires room { by + part.now.graph.states ≤ whole.old.graph.states }
    requires few { whole.old.graph.states ≤ MOST_STATES }
    requires few_ways { length whole.old.graph.ways + length part.now.graph.ways ≤ MOST_WAYS }
    ensures names { whole.new.names ≡ whole.old.names }
    ensures ways { OnOk result (IsWithWays by part.now.graph whole.old.graph whole.new.graph) }
    ensures fault { IfErr result (λ e. e ≡ WantOfMemory) }
{
    part.is_marked();
    let ways = part.ways();
    for way in ways {
        whole.add_way(Way {
            from: by + way.from,
            marks: way.marks,
            bytes: way.bytes,
            to: by + way.to,
        })?;
    }
    Ok(())
}

/// Adds the starts, the ends and the idle states of a part, whose ways are there, moved.
pub(crate) fn add_part(whole: &mut Automaton, part: &Automaton, by: u32) -> Result<(), OutOfMemory>
    requires names { whole.old.names ≡ part.now.names }
    requires room { by + part.now.graph.states ≤ whole.old.graph.states }
    requires few { whole.old.graph.states ≤ MOST_STATES }
    requires ways { (q : ℕ) → Has part.now.graph.idle q → Has whole.old.graph.ways (idle_way (by + q)) }
    ensures names { whole.new.names ≡ whole.old.names }
    ensures part { OnOk result (IsWithPart by part.now.graph whole.old.graph whole.new.graph) }
{
    part.is_marked();
    add_starts(whole, part, by)?;
    add_stops(whole, part, by)?;
    add_idle(whole, part, by)
}

fn add_starts(whole: &mut Automaton, part: &Automaton, by: u32) -> Result<(), OutOfMemory>
    requires part { IsWhole part.now.graph }
    requires room { by + part.now.graph.states ≤ whole.old.graph.states }
    requires few { whole.old.graph.states ≤ MOST_STATES }
    ensures names { whole.new.names ≡ whole.old.names }
    ensures starts { OnOk result (whole.new.graph.starts ≡ whole.old.graph.starts ++ map (◌+◌ by) part.now.graph.starts) }
    ensures same { OnOk result ((whole.new.graph.states ≡ whole.old.graph.states) ×
        (whole.new.graph.ways ≡ whole.old.graph.ways) × (whole.new.graph.stops ≡ whole.old.graph.stops) ×
        (whole.new.graph.idle ≡ whole.old.graph.idle)) }
{
    let starts = part.starts();
    for state in starts {
        whole.add_start(by + *state)?;
    }
    Ok(())
}

fn add_stops(whole: &mut Automaton, part: &Automaton, by: u32) -> Result<(), OutOfMemory>
    requires part { IsMarked part.now }
    requires names { whole.old.names ≡ part.now.names }
    requires room { by + part.now.graph.states ≤ whole.old.graph.states }
    requires few { whole.old.graph.states ≤ MOST_STATES }
    ensures names { whole.new.names ≡ whole.old.names }
    ensures stops { OnOk result (whole.new.graph.stops ≡ whole.old.graph.stops ++ map (moved_stop by) part.now.graph.stops) }
    ensures same { OnOk result ((whole.new.graph.states ≡ whole.old.graph.states) ×
        (whole.new.graph.ways ≡ whole.old.graph.ways) × (whole.new.graph.starts ≡ whole.old.graph.starts) ×
        (whole.new.graph.idle ≡ whole.old.graph.idle)) }
{
    let stops = part.stops();
    for stop in stops {
        whole.add_stop(Stop {
            state: by + stop.state,
            marks: stop.marks,
        })?;
    }
    Ok(())
}

fn add_idle(whole: &mut Automaton, part: &Automaton, by: u32) -> Result<(), OutOfMemory>
    requires part { IsWhole part.now.graph }
    requires room { by + part.now.graph.states ≤ whole.old.graph.states }
    requires few { whole.old.graph.states ≤ MOST_STATES }
    requires ways { (q : ℕ) → Has part.now.graph.idle q → Has whole.old.graph.ways (idle_way (by + q)) }
    ensures names { whole.new.names ≡ whole.old.names }
    ensures graph { OnOk result (HasGraphOf whole.new.graph whole.old.graph) }
    ensures idles { OnOk result ((p : ℕ) → Has whole.new.graph.idle p ↔ (Has whole.old.graph.idle p ⊎ HasMovedIdle by part.now.graph p)) }
{
    for state in 0..part.states() {
        if part.is_idle(state) {
            whole.set_idle(by + state)?;
        }
    }
    Ok(())
}
