//! Laws of reading without markers, and of reading a document at some of its positions alone, each the contract of a
//! function that does nothing.
ghost use Rattle.segment_filter.specs.Readings.{AlikeLaw};
ghost use Rattle.segment_filter.specs.Laws.{AtomAtMore, AtomAtTouched, AtomWaits, WaitingLaw};
ghost use Rattle.segment_filter.specs.Sharing.{SharingLaw};

/// What reading without markers weighs, and how many look-ups it has, depends on the automaton's steps alone.
pub fn readings_with_the_same_steps_are_alike()
    ensures { AlikeLaw }
{}

/// Where an automaton only waits outside of some positions, reading at these alone finds its words.
pub fn waiting_needs_no_reading()
    ensures { WaitingLaw }
{}

/// Reading an atom's automaton at the positions that the atom touches finds its words.
pub fn atoms_are_read_at_what_they_touch()
    ensures { AtomAtTouched }
{}

/// The same at any positions that contain those.
pub fn atoms_are_read_at_more()
    ensures { AtomAtMore }
{}

/// The automaton of an atom only waits at the positions that the atom does not touch.
pub fn atoms_wait_outside()
    ensures { AtomWaits }
{}

/// An atom touches exactly the positions at which its automaton, read forwards, and that of the atom tied
/// to the start, read backwards from its ends, share a place or the state Before.
pub fn touched_positions_are_shared()
    ensures { SharingLaw }
{}
