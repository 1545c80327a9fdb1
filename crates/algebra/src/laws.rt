//! Laws of the operations, each the contract of a function that does nothing.
ghost use Rattle.std.specs.Prelude.{◌≡◌};
ghost use Rattle.algebra.specs.declared.TheConstants.{MOST_ENDS};
ghost use Rattle.algebra.specs.Joining.{JoinsOfFewEnds};
ghost use Rattle.algebra.specs.Laws.{JoinLaws, ReductOfJoin, ReductOfUnion, UnionLaw};
ghost use Rattle.algebra.specs.Rows.{BlocksAgree, BlocksAreJoined};
ghost use Rattle.algebra.specs.Uniting.{UnionOverLaw, UnionOverSameNames};

/// A union accepts what one of its parts accepts.
pub fn unions_accept_what_a_part_accepts()
    ensures { UnionLaw }
{}

/// A union of automata over different variables accepts the words of its parts, over the variables of both.
pub fn unions_accept_the_words_of_both_over_all_names()
    ensures { UnionOverLaw }
{}

/// Where both have the same variables, their blocks stay as they are.
pub fn unions_over_the_same_names_change_no_block()
    ensures { UnionOverSameNames }
{}

/// A join accepts what words of its parts, that go together, make.
pub fn joins_accept_what_both_accept()
    ensures { JoinLaws }
{}

/// The union of reducts reduces the union.
pub fn unions_of_reducts()
    ensures { ReductOfUnion }
{}

/// The join of reducts reduces the join.
pub fn joins_of_reducts()
    ensures { ReductOfJoin }
{}

/// The blocks of two rows agree at all positions exactly where their shared variables have equal spans.
pub fn blocks_agree_where_shared_spans_are_equal()
    ensures { BlocksAgree }
{}

/// What the blocks of two rows are together is the block of the row that has the spans of both.
pub fn joined_blocks_are_those_of_the_merged_row()
    ensures { BlocksAreJoined }
{}

/// A join has no more ends than the product of the numbers of ends. It is not refused for its ends where that product
/// is within `MOST_ENDS`.
pub fn joins_of_few_ends_are_not_refused_for_them()
    ensures { JoinsOfFewEnds }
{}

/// The guard of a join, as a number.
pub fn limits()
    ensures { MOST_ENDS ≡ 8000000 }
{}
