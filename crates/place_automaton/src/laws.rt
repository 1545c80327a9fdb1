//! Laws of the automata of atoms, each the contract of a function that does nothing.
ghost use Rattle.place_automaton.specs.Atom.{AtomLaw};
ghost use Rattle.place_automaton.specs.CountLaw.{CountLaw, FunctionalCountLaw};
ghost use Rattle.place_automaton.specs.Examples.{CountsOfTheExamples};
ghost use Rattle.place_automaton.specs.Repeats.{WellBuiltRepeats};
ghost use Rattle.place_automaton.specs.Words.{AtomRowLaw, WholeLaw};

/// The automaton of an atom accepts exactly what the atom's formula fits, with the blocks of the captures.
pub fn atoms_accept_what_they_fit()
    ensures { AtomLaw }
{}

/// The automaton of an atom accepts the words of the rows of its answers, and no others.
pub fn atoms_accept_the_words_of_their_rows()
    ensures { AtomRowLaw }
{}

/// The numbers of an atom, by its formula alone, are those of its automaton, whatever the formula: the states always,
/// and the ways where no null is too large to be listed.
pub fn counts_are_those_of_the_automaton()
    ensures { CountLaw }
{}

/// The numbers of a functional formula are those that do not look at markers, where null is a yes or a no.
pub fn counts_of_functional_formulas()
    ensures { FunctionalCountLaw }
{}

/// The numbers of a few atoms.
pub fn counts_of_the_examples()
    ensures { CountsOfTheExamples }
{}

/// The automaton of an atom has no way, end or idle state but of its own states.
pub fn the_automaton_of_an_atom_is_whole()
    ensures { WholeLaw }
{}

/// The repetitions of a well built formula have their numbers in order.
pub fn well_built_formulas_have_ordered_repeats()
    ensures { WellBuiltRepeats }
{}
