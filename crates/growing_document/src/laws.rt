//! Laws of documents that grow, each the contract of a function that does nothing.
ghost use Rattle.growing_document.specs.Grown.{AppendsLaw};
ghost use Rattle.growing_document.specs.Lengths.{LengthsLaw, ReductWeighs, WholeWeighs};

/// All appends that answered Ok take, together with `Growing::new`, at most the steps of reading the whole document at once,
/// whatever rows were asked for between them.
pub fn appends_take_no_more_than_the_whole()
    ensures { AppendsLaw }
{}

/// The end look-ups that are held are of the lengths at which the rows were asked for, so that what a refusal for weight weighs is told by
/// the document and these lengths alone.
pub fn what_is_held_is_told_by_the_lengths_asked()
    ensures { LengthsLaw }
{}

/// A reduct holds no more weight, whatever the document and the lengths at which its rows are asked for. So the cause of a refusal may
/// be told of the automaton that was reduced.
pub fn a_reduct_holds_no_more()
    ensures { ReductWeighs }
{}

/// Asked for its rows at its end alone, a document weighs what it weighs where it is read at once, whatever pieces it came in. So the
/// cause of a refusal is the same for both.
pub fn a_document_weighs_what_the_whole_does()
    ensures { WholeWeighs }
{}
