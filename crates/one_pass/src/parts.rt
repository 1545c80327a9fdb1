//! Intervals of positions that ascend, with the gaps before, between and behind them.
ghost use Rattle.std.specs.Prelude.{◌≡◌, ℕ, ◌+◌, ◌*◌, ◌^◌, ◌≤◌, min, length, IfErr, OnErr, OnOk};
ghost use Rattle.span_core.specs.Intervals.{AreApart, Covers};
ghost use Rattle.one_pass.specs.Going.{GivesUp, GoesOn, PassReads};
ghost use Rattle.one_pass.specs.Places.{part_places, parts_places};

use crate::pass::Pass;
use set_table::{Table, TableFault};
use span_core::Steps;
use std::sync::ledger::Ledger;

impl Pass {
    /// Reads intervals of positions that ascend, and the gaps before, between and behind them.
    pub(crate) fn read_parts<L: Ledger>(
        &mut self,
        table: &mut Table<'_>,
        doc: &[u8],
        parts: &[(u32, u32)],
        steps: &mut Steps<L>,
    ) -> Result<(), TableFault>
        requires goes_on { GoesOn table.old self.old }
        requires first { self.old.at ≡ 0 }
        requires apart { AreApart parts.now }
        requires within { (q : ℕ) → Covers parts.now q → q ≤ length doc.now }
        requires few { length doc.now ≤ 2 ^ 28 }
        ensures read { OnOk result (PassReads (parts_places 0 parts.now doc.now) table.old self.old steps.old table.new
            self.new steps.new) }
        ensures at { OnOk result (self.new.at ≡ length doc.now) }
        ensures given_up { IfErr result (GivesUp (parts_places 0 parts.now doc.now) table.old self.old steps.old table.new steps.new) }
    {
        let mut next = 0;
        for part in parts {
            let (first, last) = *part;
            if let Err(fault) = self.skip(table, first, steps) {
                return Err(fault);
            }
            let end = (last as usize + 1).min(doc.len());
            if let Err(fault) = self.read(table, &doc[first as usize..end], steps) {
                return Err(fault);
            }
            next = last + 1;
        }
        if next as usize > doc.len() {
            return Ok(());
        }
        self.step_rest(table, doc.len() as u32, steps)
    }
}
