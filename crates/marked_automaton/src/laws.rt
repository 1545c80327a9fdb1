//! Laws of automata and of their reducts, each the contract of a function that does nothing.
ghost use Rattle.marked_automaton.specs.Images.{ImageLaw};
ghost use Rattle.marked_automaton.specs.Laws.{KeepingLaw, ProjectionLaw, RearrangedByPermutation, RearrangedIsReduct, ReductAccepts, ReductIsNoLarger, ReductOfItself, ReductOfProjection, ReductOfReduct, ReversalLaw};
ghost use Rattle.marked_automaton.specs.Marks.{ErasingLaw};

/// Each whole automaton is a reduct of itself.
pub fn a_whole_automaton_is_a_reduct_of_itself()
    ensures { ReductOfItself }
{}

/// What reduces a reduct reduces what that reduces.
pub fn a_reduct_of_a_reduct_is_a_reduct()
    ensures { ReductOfReduct }
{}

/// A reduct accepts what it reduces accepts.
pub fn a_reduct_accepts_what_it_reduces_accepts()
    ensures { ReductAccepts }
{}

/// A reduct has no more states, ways or ends.
pub fn a_reduct_is_no_larger()
    ensures { ReductIsNoLarger }
{}

/// The projection of a reduct reduces the projection.
pub fn projections_of_reducts()
    ensures { ReductOfProjection }
{}

/// A projection that keeps all variables changes nothing.
pub fn a_projection_to_all_variables_changes_nothing()
    ensures { KeepingLaw }
{}

/// A projection accepts what is left of the words.
pub fn projections_accept_what_is_left()
    ensures { ProjectionLaw }
{}

/// What is left of a row's blocks are the blocks of the row over the kept variables, in which those that were
/// not there are absent.
pub fn kept_marks_are_those_of_the_kept_row()
    ensures { ErasingLaw }
{}

/// Turned round, an automaton without markers accepts the documents turned round.
pub fn reversed_automata_accept_reversed_documents()
    ensures { ReversalLaw }
{}

/// A permutation of the ways changes nothing but their order.
pub fn a_permutation_of_the_ways_rearranges()
    ensures { RearrangedByPermutation }
{}

/// What differs in the order of its ways alone is a reduct.
pub fn what_rearranges_reduces()
    ensures { RearrangedIsReduct }
{}

/// The sets of states that a reduct reaches are images.
pub fn sets_of_a_reduct_are_images()
    ensures { ImageLaw }
{}
