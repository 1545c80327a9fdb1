//! The headline as a law, the contract of a function that does nothing.
ghost use Rattle.whole_program.specs.Headline.{Headline};

/// What the stages of a run leave, from the automaton of the query to the rows after the cursor's, makes the page of the query's
/// answers. Its proof is the way from the formulas up to the page, each step one law (`proofs/Headline.antt`).
pub fn stages_make_the_page()
    ensures { Headline }
{}
