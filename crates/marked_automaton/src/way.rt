//! The transitions and the ends of automata.
use span_core::{ByteSet, Marks};

/// A transition: at one position it takes all of `marks`, and then one of `bytes`.
#[derive(Clone, Copy, Debug)]
pub struct Way {
    /// The state that it leads from.
    pub from: u32,
    /// The markers that stand at the position.
    pub marks: Marks,
    /// The bytes of which one stands at the position.
    pub bytes: ByteSet,
    /// The state that it leads to.
    pub to: u32,
}

/// An end: in this state, at the end of the document, with these markers.
#[derive(Clone, Copy, Debug)]
pub struct Stop {
    /// The state.
    pub state: u32,
    /// The markers that stand at the last position.
    pub marks: Marks,
}
