//! The ends at one state, of those in the order of states.
ghost use Rattle.std.specs.Prelude.{◌≡◌};
ghost use Rattle.std.specs.List.Sorted.{IsNonDecreasingBy};
ghost use Rattle.algebra.specs.Pairs.{half_at, those_at};

use crate::halves::HalfStop;

/// The ends at a state, of ends in the order of their states.
pub(crate) fn stops_from(stops: &[HalfStop], state: u32) -> &[HalfStop]
    requires { IsNonDecreasingBy half_at stops.now }
    ensures { result.now ≡ those_at half_at state stops.now }
{
    let low = stops.partition_point(|half| half.stop.state < state);
    let (_, rest) = stops.split_at(low);
    let count = rest.partition_point(|half| half.stop.state <= state);
    let (row, _) = rest.split_at(count);
    row
}
