//! What holds of the answers of reading a test file, and of verdicts. The functions are there for
//! proofs, and do nothing when they run.
ghost use Rattle.std.specs.Prelude.{List};
ghost use Rattle.rbbi_model.specs.Boundaries.{Boundary};
ghost use Rattle.rbbi_conform.specs.Tests.{Test};
ghost use Rattle.rbbi_conform.specs.Laws.{HaveOneTestList, HasOneVerdict};

/// Law: bytes have one answer but for `Memory`: they are the file of one list of tests, or they
/// have one fault.
pub fn one_tests()
    ensures { HaveOneTestList }
{}

/// Law: a test has one verdict by some boundaries.
pub fn one_verdict()
    ensures { (boundaries : List Boundary) (test : Test) → HasOneVerdict boundaries test }
{}
