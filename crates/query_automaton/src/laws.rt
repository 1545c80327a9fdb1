//! Laws of the automata of queries, each the contract of a function that does nothing.
ghost use Rattle.std.specs.Prelude.{◌≡◌};
ghost use Rattle.query_automaton.specs.declared.effort.TheConstants.{MOST_HELD, MOST_STEPS};
ghost use Rattle.query_automaton.specs.Held.{QueriesOfFewEnds, QueriesOfFewSteps, QueriesOfSmallParts};
ghost use Rattle.query_automaton.specs.Laws.{QueryWords};
ghost use Rattle.query_automaton.specs.Weights.{WeightOfTheExample};

/// The automaton of a sound query accepts the words of the rows of its answers, and no others.
pub fn queries_accept_the_words_of_their_rows()
    ensures { QueryWords }
{}

/// The numbers of reading a worked example at all positions: `(a|b)*a(a|b){12}!x{c}` on thirteen bytes `a`
/// and a `c`.
pub fn weight_of_the_example()
    ensures { WeightOfTheExample }
{}

/// A query of which each part has at most a number of states, ways and ends together is never refused for what it holds,
/// where the number is within `MOST_HELD` as often as automata are held.
pub fn queries_of_small_parts_hold_little()
    ensures { QueriesOfSmallParts }
{}

/// A query of which each part has at most a number of states, ways and ends together is never refused for its steps, where
/// those that the number allows are fewer than `MOST_STEPS`.
pub fn queries_of_few_steps_are_not_refused_for_them()
    ensures { QueriesOfFewSteps }
{}

/// A query of which each part has at most `MOST_ENDS` states, ways and ends together is never refused for the ends of one
/// automaton.
pub fn queries_of_few_ends_are_not_refused_for_them()
    ensures { QueriesOfFewEnds }
{}

/// The guards of compiling, as numbers.
pub fn limits()
    ensures steps { MOST_STEPS ≡ 2000000000 }
    ensures held { MOST_HELD ≡ 8000000 }
{}
