//! Laws of programs, of validity and of the first fault, each as the contract of a function that does nothing.
ghost use Rattle.stride_isa.specs.Laws.{EachCellStarts, ValidHasNoFault, FaultlessIsValid, OneFirstFault, HasVerdict, OneVerdict};

/// Each cell has a starting value.
pub fn each_cell_starts()
    ensures { EachCellStarts }
{}

/// A valid program has no fault.
pub fn valid_has_no_fault()
    ensures { ValidHasNoFault }
{}

/// A program without a fault is valid.
pub fn faultless_is_valid()
    ensures { FaultlessIsValid }
{}

/// A program has one first fault at most: one thread, position and kind.
pub fn one_first_fault()
    ensures { OneFirstFault }
{}

/// A program has a verdict: one that is not valid has a first fault.
pub fn some_verdict()
    ensures { HasVerdict }
{}

/// A program has one verdict at most: it is valid, or has one first fault.
pub fn one_verdict()
    ensures { OneVerdict }
{}
