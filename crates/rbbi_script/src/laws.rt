//! What holds of the answers of reading a script.
ghost use Rattle.rbbi_script.specs.Laws.{HaveOneScript};

/// Law: bytes have one answer, unless memory runs out: they are the script of one list of commands,
/// or one fault is reported. It is there for proofs, and does nothing when it runs.
pub fn one_script()
    ensures { HaveOneScript }
{}
