//! What is read of the formulas of the table.

use crate::formula_texts::Lines;
use formula_parser::{FormulaFault, read_atom};
use span_core::ByteSet;
use spanner_model::{Atom, Formula};
use std::alloc::Global;

/// Checks all lines, and gives how many there are, or the fault and the line that does not hold.
pub(crate) fn check_formulas(alloc: Global, lines: &Lines) -> Result<usize, &'static str> {
    let mut checked: usize = 0;
    for line in lines.faults.lines() {
        if !is_fault_line(alloc, line) {
            return Err(line);
        }
        checked = checked.saturating_add(1);
    }
    for line in lines.atoms.lines() {
        if !is_atom_line(alloc, line) {
            return Err(line);
        }
        checked = checked.saturating_add(1);
    }
    for line in lines.sets.lines() {
        if !is_set_line(alloc, line) {
            return Err(line);
        }
        checked = checked.saturating_add(1);
    }
    Ok(checked)
}

fn is_fault_line(alloc: Global, line: &str) -> bool {
    let Some((name, rest)) = line.split_once(' ') else {
        return false;
    };
    let Some((at, text)) = rest.split_once(' ') else {
        return false;
    };
    let Ok(at) = at.parse::<usize>() else {
        return false;
    };
    let fault = fault_named(name, at);
    fault.is_some() && fault_of(alloc, text.as_bytes()) == fault
}

fn is_atom_line(alloc: Global, line: &str) -> bool {
    match line.split_once(' ') {
        Some((end, text)) => end_of(alloc, text.as_bytes()) == end.parse::<usize>().ok(),
        None => false,
    }
}

fn is_set_line(alloc: Global, line: &str) -> bool {
    match line.split_once(' ') {
        Some((runs, text)) => {
            set_of(alloc, text.as_bytes()).is_some_and(|set| has_runs(set, runs))
        }
        None => false,
    }
}

/// What is read of the text; None where no slash stands at its start.
fn read(alloc: Global, text: &[u8]) -> Option<Result<(Atom, usize), FormulaFault>> {
    match text.get(0) {
        Some(b'/') if text.len() <= 65_536 => Some(read_atom(alloc, text, 0)),
        _ => None,
    }
}

fn fault_of(alloc: Global, text: &[u8]) -> Option<FormulaFault> {
    match read(alloc, text) {
        Some(Err(fault)) => Some(fault),
        _ => None,
    }
}

fn end_of(alloc: Global, text: &[u8]) -> Option<usize> {
    match read(alloc, text) {
        Some(Ok((_, end))) => Some(end),
        _ => None,
    }
}

fn set_of(alloc: Global, text: &[u8]) -> Option<ByteSet> {
    match read(alloc, text) {
        Some(Ok((atom, _))) => only_set(&atom.formula),
        _ => None,
    }
}

fn only_set(formula: &Formula) -> Option<ByteSet> {
    match formula {
        Formula::One(set) => Some(*set),
        _ => None,
    }
}

/// The fault of this name.
fn fault_named(name: &str, at: usize) -> Option<FormulaFault> {
    match name {
        "Unexpected" => Some(FormulaFault::Unexpected { at }),
        "Unclosed" => Some(FormulaFault::Unclosed { at }),
        "BadEscape" => Some(FormulaFault::BadEscape { at }),
        "BadRange" => Some(FormulaFault::BadRange { at }),
        "BadRepeat" => Some(FormulaFault::BadRepeat { at }),
        "DoubleRepeat" => Some(FormulaFault::DoubleRepeat { at }),
        "Anchor" => Some(FormulaFault::Anchor { at }),
        "NameTooLong" => Some(FormulaFault::NameTooLong { at }),
        "ReservedName" => Some(FormulaFault::ReservedName { at }),
        "TooDeep" => Some(FormulaFault::TooDeep { at }),
        "UnknownProperty" => Some(FormulaFault::UnknownProperty { at }),
        _ => None,
    }
}

fn is_within(b: u8, run: &str) -> bool {
    match run.split_once('-') {
        Some((low, high)) => {
            low.parse::<u8>().is_ok_and(|low| low <= b)
                && high.parse::<u8>().is_ok_and(|high| b <= high)
        }
        None => false,
    }
}

/// Whether the set has exactly the bytes of these runs.
fn has_runs(set: ByteSet, runs: &str) -> bool {
    (0..=255).all(|b| set.contains(b) == runs.split(',').any(|run| is_within(b, run)))
}
