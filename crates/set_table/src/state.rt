//! Tables that are laid down while nothing holds their automaton.
use crate::store::Store;

/// What a table holds, without the automaton that it reads: `Table::lay_down` gives it, and `Table::take_up`
/// goes on with it.
#[derive(Drop)]
pub struct TableState {
    pub(crate) limit: u64,
    pub(crate) weight: u64,
    pub(crate) store: Store,
}
