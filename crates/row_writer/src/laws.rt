//! A law of lines, the contract of a function that does nothing.
ghost use Rattle.row_writer.specs.InPlace.{LinesInPlace};

/// The line of a row that a `KeptLine` writes is the row's spans line, its line in the table, or its JSON line: the same bytes
/// as `spans_line`, `table_line` and `json_line` append, with texts and without, and of absent spans too.
pub fn lines_in_place()
    ensures { LinesInPlace }
{}
