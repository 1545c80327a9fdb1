//! What is open at a place of the text.
//!
//! A frame for each open group or capture keeps the arms and pieces that stand whole since it was opened. The last
//! thing read is kept apart from them, because a repeat may still belong to it.
ghost use Rattle.std.specs.Prelude.{◌≡◌, ◌<◌, ◌++◌, [], ◌∷◌, length, OnOk, IfOk};
ghost use Rattle.spanner_model.specs.View.{tree_of, trees_of};
ghost use Rattle.formula_parser.specs.Nest.{held, whole_seq, whole_alt, whole, outermost, with_unit, opened, next_arm, Left};
ghost use Rattle.formula_parser.specs.View.{last_of, nest_of, opener_of};

use crate::fault::FormulaFault;
use span_core::{Name, OutOfMemory};
use spanner_model::{Formula, Parts};
use std::alloc::Global;
use std::mem;

#[derive(Drop)]
pub(crate) enum Opener {
    Slash,
    Group,
    Capture(Name),
}

/// An opener, its place, and the arms and pieces that stand whole since then.
#[derive(Drop)]
pub(crate) struct Frame {
    pub(crate) opener: Opener,
    pub(crate) place: usize,
    pub(crate) arms: Parts,
    pub(crate) parts: Parts,
}

/// The last thing read.
#[derive(Drop)]
pub(crate) enum Last {
    Start,
    Unit(Formula),
    Repeated(Formula),
}

/// The frames that are open, the innermost apart from the others.
#[derive(Drop)]
pub(crate) struct Nest {
    pub(crate) below: Vec<Frame>,
    pub(crate) top: Frame,
    pub(crate) last: Last,
}

/// The last thing read becomes a piece.
fn settle(parts: &mut Parts, last: Last) -> Result<(), OutOfMemory>
    ensures { OnOk result (trees_of parts.new ≡ held (trees_of parts.old) (last_of last)) }
{
    match last {
        Last::Start => Ok(()),
        Last::Unit(formula) => parts.add(formula),
        Last::Repeated(formula) => parts.add(formula),
    }
}

/// The tree of a sequence that ends here.
fn seq_of(parts: Parts, last: Last) -> Result<Formula, OutOfMemory>
    ensures { IfOk result (λ f. tree_of f ≡ whole_seq (trees_of parts) (last_of last)) }
{
    if parts.len() > 0 {
        let mut parts = parts;
        settle(&mut parts, last)?;
        return Ok(Formula::Cat(parts));
    }
    match last {
        Last::Start => Ok(Formula::Empty),
        Last::Unit(formula) => Ok(formula),
        Last::Repeated(formula) => Ok(formula),
    }
}

/// The tree of an alternation that ends with this arm.
fn alt_of(arms: Parts, seq: Formula) -> Result<Formula, OutOfMemory>
    ensures { IfOk result (λ f. tree_of f ≡ whole_alt (trees_of arms) (tree_of seq)) }
{
    if arms.len() > 0 {
        let mut arms = arms;
        arms.add(seq)?;
        return Ok(Formula::Alt(arms));
    }
    Ok(seq)
}

impl Nest {
    pub(crate) fn new(alloc: Global, place: usize) -> Nest
        ensures { nest_of result ≡ outermost place }
    {
        Nest {
            below: Vec::new(alloc),
            top: Frame {
                opener: Opener::Slash,
                place,
                arms: Parts::new(alloc),
                parts: Parts::new(alloc),
            },
            last: Last::Start,
        }
    }

    pub(crate) fn unit(&mut self, formula: Formula) -> Result<(), OutOfMemory>
        ensures { OnOk result (nest_of self.new ≡ with_unit (tree_of formula) (nest_of self.old)) }
    {
        let last = mem::replace(&mut self.last, Last::Unit(formula));
        settle(&mut self.top.parts, last)
    }

    pub(crate) fn bar(&mut self, alloc: Global) -> Result<(), OutOfMemory>
        ensures { OnOk result (nest_of self.new ≡ next_arm (nest_of self.old)) }
    {
        let last = mem::replace(&mut self.last, Last::Start);
        let parts = mem::replace(&mut self.top.parts, Parts::new(alloc));
        let arm = seq_of(parts, last)?;
        self.top.arms.add(arm)
    }

    pub(crate) fn open(
        &mut self,
        alloc: Global,
        opener: Opener,
        place: usize,
    ) -> Result<(), OutOfMemory>
        ensures { OnOk result (nest_of self.new ≡ opened (opener_of opener) place (nest_of self.old)) }
    {
        let last = mem::replace(&mut self.last, Last::Start);
        settle(&mut self.top.parts, last)?;
        let inner = Frame {
            opener,
            place,
            arms: Parts::new(alloc),
            parts: Parts::new(alloc),
        };
        let outer = mem::replace(&mut self.top, inner);
        match self.below.push(outer) {
            Ok(()) => Ok(()),
            Err(_) => Err(OutOfMemory),
        }
    }

    /// What stands in the innermost frame. The frame is empty afterwards.
    pub(crate) fn take_whole(&mut self, alloc: Global) -> Result<Formula, OutOfMemory>
        ensures whole { IfOk result (λ f. tree_of f ≡ whole (nest_of self.old)) }
        ensures below { OnOk result ((nest_of self.new).below ≡ (nest_of self.old).below) }
    {
        let last = mem::replace(&mut self.last, Last::Start);
        let parts = mem::replace(&mut self.top.parts, Parts::new(alloc));
        let arms = mem::replace(&mut self.top.arms, Parts::new(alloc));
        let seq = seq_of(parts, last)?;
        alt_of(arms, seq)
    }

    /// The frame that was opened before the innermost one is the innermost again, with this formula as its last unit.
    /// False where there is none.
    pub(crate) fn leave(&mut self, formula: Formula) -> bool
        ensures { Left (tree_of formula) (nest_of self.old).below result (nest_of self.new) }
    {
        match self.below.pop() {
            Some(outer) => {
                self.top = outer;
                self.last = Last::Unit(formula);
                true
            }
            None => false,
        }
    }
}
