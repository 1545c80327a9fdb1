//! Laws of reading by sets, each the contract of a function that does nothing.
ghost use Rattle.automaton_reading.specs.Chosen.{ReadingLaw};
ghost use Rattle.automaton_reading.specs.Measures.{ReductMeasures};

/// Reading by sets of states, at all positions, finds the words that the automaton accepts.
pub fn reading_finds_the_accepted_words()
    ensures { ReadingLaw }
{}

/// A reduct makes no more edges, look-ups and weight than what it reduces.
pub fn a_reduct_costs_no_more()
    ensures { ReductMeasures }
{}
