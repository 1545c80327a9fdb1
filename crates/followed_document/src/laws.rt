//! Laws of what is given piece by piece, each the contract of a function that does nothing.
ghost use Rattle.followed_document.specs.Goes.{NothingGoes};
ghost use Rattle.followed_document.specs.Laws.{FollowedLaw, FullWordsEnd, SettledLaw, ShiftLaw};
ghost use Rattle.followed_document.specs.PieceLaws.{PieceLaw};
ghost use Rattle.followed_document.specs.Steps.{RebaseLaw, StepLaw};

/// The word of a row that has a span for each variable goes on as that of no other.
pub fn full_words_end()
    ensures { FullWordsEnd }
{}

/// With each piece those words are given that are settled behind it and were not given before, and at the end those that are accepted
/// and were not given before.
pub fn each_word_is_given_once()
    ensures { FollowedLaw }
{}

/// Of a query without a difference, none of whose atoms is tied to the end, every answer is an answer of every longer document.
pub fn no_answer_goes()
    ensures { NothingGoes }
{}

/// A piece that stands later is read as it would be earlier, with the same blocks that much later.
pub fn pieces_are_read_alike_everywhere()
    ensures { ShiftLaw }
{}

/// The same where all members of a set that is given are spent and one is lasting, of every automaton; and what is given so is accepted
/// of every longer document.
pub fn settled_words_are_given_once_for_good()
    ensures { SettledLaw }
{}

/// A piece more, read and settled by flags that tell what is settled: the layer is as it should be behind one piece more, and the words
/// that are listed are those that are given with it.
pub fn an_append_takes_the_pieces_on()
    ensures { StepLaw }
{}

/// Where one cell is live at most, nothing in the graph speaks of a position, and reading may go on as if it stood at 0.
pub fn one_cell_stands_anywhere()
    ensures { RebaseLaw }
{}

/// The same of a document whose front is forgotten: its words count from a base, and those that are listed are the words of rows.
pub fn a_piece_is_followed_from_any_base()
    ensures { PieceLaw }
{}
