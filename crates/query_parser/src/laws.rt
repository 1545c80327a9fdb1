//! Laws of the grammar and of its faults, each the contract of a function that does nothing.
ghost use Rattle.query_parser.specs.Laws.{HasOneQuery, HasNoQueryWithReadFault, HasOneReadFault, HasNoQueryWithFault, HasOneFault, HasQueryOrFault, IsReadOrRefused};
ghost use Rattle.query_parser.specs.TestedLaws.{QueriesAreAsBefore, EachTextIsTold};

/// No text spells two queries.
pub fn no_text_spells_two_queries()
    ensures { HasOneQuery }
{}

/// No text that spells a query has a fault that is met when it is read.
pub fn no_text_is_read_and_has_a_fault_of_reading()
    ensures { HasNoQueryWithReadFault }
{}

/// No text has two faults that are met when it is read.
pub fn no_text_has_two_faults_of_reading()
    ensures { HasOneReadFault }
{}

/// No text of a sound query has a fault.
pub fn no_text_has_a_query_and_a_fault()
    ensures { HasNoQueryWithFault }
{}

/// No text has two faults.
pub fn no_text_has_two_faults()
    ensures { HasOneFault }
{}

/// Each text, of whatever numbers, spells a query, has a fault that is met when it is read, or has a
/// projection that keeps too many names.
pub fn each_text_is_read_or_refused()
    ensures { IsReadOrRefused }
{}

/// Each text of bytes is that of a query with tests or has a fault, and never two of these.
pub fn each_text_with_tests_is_told()
    ensures { EachTextIsTold }
{}

/// A text in which no tests begin is that of the query, or has the fault, that it was and had without tests.
pub fn queries_without_tests_are_as_before()
    ensures { QueriesAreAsBefore }
{}

/// Each text of bytes is that of a sound query or has a fault.
pub fn each_text_has_a_query_or_a_fault()
    ensures { HasQueryOrFault }
{}
