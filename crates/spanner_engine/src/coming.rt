//! Beginning the answers while the document comes: each piece is read when it is there, and then needed no more.
ghost use Rattle.std.specs.Prelude.{◌≡◌, ℕ, ◌+◌, ◌^◌, ◌<◌, ◌≤◌, List, ◌++◌, length};
ghost use Rattle.marked_automaton.specs.Automaton.{Automaton as Graph};
ghost use Rattle.spanner_engine.specs.Coming.{HasReadAll, IsRefusedFor};
ghost use Rattle.spanner_engine.specs.Stages.{IsThere, IsTakenBy};

use one_pass::Reading;
use set_table::TableFault;
use span_core::Steps;
use std::sync::ledger::Ledger;

/// The most bytes of a document.
const MOST_BYTES: u64 = 268_435_456;

/// A reading that goes on.
#[derive(Drop)]
pub struct Going<'a> {
    pub(crate) reading: Reading<'a>,
}

/// How far a document has been read.
#[derive(Drop)]
pub enum Stage<'a> {
    /// All that came.
    Going(Going<'a>),
    /// The reading was refused.
    Refused(TableFault),
    /// More bytes came than a document may have.
    Past,
}

/// Reads a piece on.
pub fn read_on<'a, L: Ledger>(
    stage: Stage<'a>,
    seen: u64,
    piece: &[u8],
    steps: &mut Steps<L>,
) -> (Stage<'a>, u64)
    requires there { IsThere stage seen }
    ensures there { IsThere result.0 result.1 }
    ensures taken { (A : Graph) (limit before : ℕ) (d : List ℕ) → IsTakenBy A limit before d stage.entry seen steps.old →
        IsTakenBy A limit before (d ++ piece.now) result.0 result.1 steps.new }
{
    let count = piece.len() as u64;
    if seen > MOST_BYTES || count > MOST_BYTES - seen {
        give_up(stage);
        return (Stage::Past, seen);
    }
    let going = match stage {
        Stage::Going(going) => going,
        Stage::Refused(fault) => return (Stage::Refused(fault), seen + count),
        Stage::Past => return (Stage::Past, seen),
    };
    let Going { reading } = going;
    let more = match reading.read(piece, steps) {
        Ok(more) => more,
        Err(fault) => return (Stage::Refused(fault), seen + count),
    };
    (Stage::Going(Going { reading: more }), seen + count)
}

/// Drops a stage, here alone: what a caller has to prove grows with each of its many fields.
fn give_up(_stage: Stage<'_>) {}
