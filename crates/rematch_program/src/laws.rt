//! Laws of runs and of pages, each the contract of a function that does nothing.
ghost use Rattle.rematch_program.specs.AsBefore.{FunctionalQueriesAreServedAsBefore};
ghost use Rattle.rematch_program.specs.Complete.{CompletenessLaw};
ghost use Rattle.rematch_program.specs.Examples.{NoteExamples, SizeExamples};
ghost use Rattle.rematch_program.specs.Fetched.{FetchesInOrder, FetchesNothing, FetchesOnce};
ghost use Rattle.rematch_program.specs.Resume.{PagesGiveEachOnce, PagesResume};
ghost use Rattle.rematch_program.specs.WithoutTests.{WithoutTests};

/// Pages that are resumed at the cursors of their own notes join, with tests and without.
///
/// The note of a page gives a text by which a run with the same query and document begins where the page ended. It is
/// taken and fits the document, and the rows of both pages are those of one page of both limits. With a document of
/// another length it is refused; a document of the same length with other bytes is the user's own matter.
///
/// So any number of pages, each begun at the note of the one before, has the first of the rows that pass: each once, in
/// order, as many as the limits say. Where each limit is at least 1, as many pages as there are rows have them all.
pub fn pages_resume()
    ensures join { PagesResume }
    ensures each_once { PagesGiveEachOnce }
{}

/// Queries of functional formulas (Fagin et al. 2015), whose unions have equal variables, are accepted, answered and told as they
/// were where no variable may be absent: the same rows in the same order, none of them with an absent variable, and the same
/// numbers.
pub fn functional_queries_are_served_as_before()
    ensures { FunctionalQueriesAreServedAsBefore }
{}

/// What a run does brings about that it is whole where nothing stands in its way.
pub fn completeness_follows()
    ensures { CompletenessLaw }
{}

/// A run fetches the name of its query, where it is asked by name, and then that of the document, where a page is asked for; it may end
/// before that. No name is fetched twice, unless query and document have the same one. Standard input is fetched once at most, since
/// words are refused that take both from it.
pub fn names_are_fetched_once()
    ensures in_order { FetchesInOrder }
    ensures once { FetchesOnce }
    ensures nothing { FetchesNothing }
{}

/// Worked examples.
pub fn worked_examples()
    ensures notes { NoteExamples }
    ensures sizes { SizeExamples }
{}

/// A query without tests runs as before there were any, whatever tests are known.
pub fn queries_without_tests_run_as_before()
    ensures { WithoutTests }
{}
