//! Which states cover the next, and which members are passed over: that they are found, which no clause says.
use crate::covering::{is_passed, lead_within, note_places};
use marked_automaton::Way;
use span_core::{ByteSet, Marks};
use std::test::Fail;

/// A way of this byte and markers to this state.
fn way(byte: u8, marks: u64, to: u32) -> Way {
    Way {
        from: 0,
        marks: Marks::of(marks),
        bytes: ByteSet::single(byte),
        to,
    }
}

/// Whether the ways cover the row, with room for the targets below so many.
fn cover(rt: &HostRuntime, row: &[Way], ways: &[Way], room: usize) -> Result<bool, Fail> {
    let mut places = Vec::new(rt.alloc());
    places.resize(room, 0)?;
    note_places(places.as_mut_slice(), ways);
    Ok(lead_within(row, ways, places.as_slice()))
}

#[test]
fn a_row_is_covered_by_ways_with_its_markers_bytes_and_targets(
    rt: HostRuntime,
) -> Result<(), Fail> {
    let ways = [way(97, 0, 3), way(97, 2, 4), way(98, 0, 2)];
    assert!(rt; cover(&rt, &[], &[], 5)?);
    assert!(rt; cover(&rt, &[], &ways, 5)?);
    assert!(rt; cover(&rt, &[way(98, 0, 2), way(97, 0, 3)], &ways, 5)?);
    assert!(rt; cover(&rt, &ways, &ways, 5)?);
    Ok(())
}

#[test]
fn a_row_is_not_covered_if_a_byte_the_markers_or_a_target_differ(
    rt: HostRuntime,
) -> Result<(), Fail> {
    let ways = [way(97, 0, 3), way(97, 2, 4)];
    assert!(rt; !cover(&rt, &[way(98, 0, 3)], &ways, 5)?);
    assert!(rt; !cover(&rt, &[way(97, 0, 4)], &ways, 5)?);
    assert!(rt; !cover(&rt, &[way(97, 0, 2)], &ways, 5)?);
    assert!(rt; !cover(&rt, &[way(97, 0, 3)], &[], 5)?);
    assert!(rt; !cover(&rt, &[way(97, 0, 3)], &ways, 3)?);
    Ok(())
}

#[test]
fn a_member_is_passed_over_just_behind_a_state_that_covers_it(rt: HostRuntime) -> Result<(), Fail> {
    let covering = [true, false, true, true, true, true];
    let members = [0, 1, 2, 3, 5, 6, 7];
    let mut passed = Vec::new(rt.alloc());
    for place in 0..members.len() {
        passed.push(is_passed(&covering, &members, place))?;
    }
    assert_eq!(rt;
        passed.as_slice(),
        [false, true, false, true, false, true, false].as_slice()
    );
    Ok(())
}
