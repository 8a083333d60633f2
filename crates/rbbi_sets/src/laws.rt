//! Laws of sets.
ghost use Rattle.rbbi_sets.specs.Laws.{MembersDetermine};

/// Two lists of the form of a set that have the same members are equal. So each operation's result
/// is determined by what its contract says of the members.
pub fn members_determine()
    ensures { MembersDetermine }
{}
