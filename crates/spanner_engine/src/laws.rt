//! Laws of the answers of a query, each the contract of a function that does nothing.
ghost use Rattle.spanner_engine.specs.Laws.{CompiledAcceptsRows, ReadAreASet, ReductCosts, RowsAfterAreTheRest, RowsAreAnswers, WholeRowsAreAnswers, WordsAreOfRows};
ghost use Rattle.spanner_engine.specs.Waiting.{JoinWaits, ProjectionWaits, QueryReading, QueryWaits, ReductWaits, UnionWaits};

/// Each word that is read is that of a row.
pub fn words_that_are_read_are_those_of_rows()
    ensures { WordsAreOfRows }
{}

/// The rows of the words that are read, in block order, are the answers of the query.
pub fn rows_of_words_are_the_answers()
    ensures { RowsAreAnswers }
{}

/// The rows of an enumerator after a row are the rest of the answers.
pub fn rows_after_a_row_are_the_rest()
    ensures { RowsAfterAreTheRest }
{}

/// Reading a reduct costs no more than reading what it reduces.
pub fn reading_a_reduct_costs_no_more()
    ensures { ReductCosts }
{}

/// A compiled query accepts no words but those of rows.
pub fn compiled_queries_accept_words_of_rows()
    ensures { CompiledAcceptsRows }
{}

/// The rows of the words with which a compiled query reads a whole document, in block order, are its answers.
pub fn rows_of_whole_documents_are_the_answers()
    ensures { WholeRowsAreAnswers }
{}

/// There is a set of the positions at which a document is read, for each sound query, with the filter and
/// without it: so what is said of each such set is said of one.
pub fn read_positions_are_a_set()
    ensures { ReadAreASet }
{}

/// A union of automata that only wait outside of some positions only waits there.
pub fn unions_wait_outside()
    ensures { UnionWaits }
{}

/// So does a projection.
pub fn projections_wait_outside()
    ensures { ProjectionWaits }
{}

/// So does a join.
pub fn joins_wait_outside()
    ensures { JoinWaits }
{}

/// So does a reduct.
pub fn reducts_wait_outside()
    ensures { ReductWaits }
{}

/// The automaton of a sound query only waits at the positions that no atom of its text touches.
pub fn queries_wait_outside()
    ensures { QueryWaits }
{}

/// Reading the automaton of a compiled query at the positions that its atoms touch, or at more, finds
/// the words of the rows of its answers, and no others.
pub fn queries_are_read_at_what_their_atoms_touch()
    ensures { QueryReading }
{}
