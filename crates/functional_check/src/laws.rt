//! Laws of faults, each the contract of a function that does nothing.
ghost use Rattle.functional_check.specs.Laws.{SequentialHaveNoFault, FaultsAreOne};

/// A sequential formula has no fault.
pub fn sequential_have_no_fault()
    ensures { SequentialHaveNoFault }
{}

/// A formula has one fault at most.
pub fn faults_are_one()
    ensures { FaultsAreOne }
{}
