//! Laws of the meaning, each the contract of a function that does nothing.
ghost use Rattle.spanner_model.specs.Laws.{SequentialFitsGiveTheSure, FitsLieInTheDocument, AnswersAreAbsentOutside, AnswersGiveTheSure};
ghost use Rattle.spanner_model.specs.Laws.{FunctionalIsSequential, FunctionalQueriesAreAsBefore};
ghost use Rattle.spanner_model.specs.Laws.{UnionsAnswerForSomePart, JoinsAnswerForEachPart, ResultNamesAreOne, AnswersAreOne, PagesAreOne, PagesJoin};

/// A fit of a sequential formula captures each of its sure variables, and none but its variables.
pub fn sequential_fits_give_the_sure()
    ensures { SequentialFitsGiveTheSure }
{}

/// A part that fits does not end before it begins, and ends in the document if it begins there.
pub fn fits_lie_in_the_document()
    ensures { FitsLieInTheDocument }
{}

/// An answer gives a span to no name but the result's variables.
pub fn answers_are_absent_outside()
    ensures { AnswersAreAbsentOutside }
{}

/// An answer gives a span to each sure variable of the query's result.
pub fn answers_give_the_sure()
    ensures { AnswersGiveTheSure }
{}

/// A functional formula is sequential, and each of its variables is sure.
pub fn functional_formulas_are_sequential()
    ensures { FunctionalIsSequential }
{}

/// Queries of functional formulas, whose unions have equal variables, are sound, each of their variables is sure, and
/// their answers are those that they have where no variable may be absent.
pub fn functional_queries_are_as_before()
    ensures { FunctionalQueriesAreAsBefore }
{}

/// The answers of a union are those of its parts, however many.
pub fn unions_answer_for_some_part()
    ensures { UnionsAnswerForSomePart }
{}

/// An answer of a join of any number of parts is one mapping that restricts to an answer of each.
pub fn joins_answer_for_each_part()
    ensures { JoinsAnswerForEachPart }
{}

/// A query has one list of result names.
pub fn result_names_are_one()
    ensures { ResultNamesAreOne }
{}

/// A query has one list of all answers on a document.
pub fn answers_are_one()
    ensures { AnswersAreOne }
{}

/// A query has one page of a given limit after a given row.
pub fn pages_are_one()
    ensures { PagesAreOne }
{}

/// Pages that continue each other make one page.
pub fn pages_join()
    ensures { PagesJoin }
{}
