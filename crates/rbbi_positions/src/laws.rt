//! Laws of the positions that the rules spell.
ghost use Rattle.rbbi_positions.specs.Walks.{SpelledAreOfTheRule, SpelledAreExchanged};
ghost use Rattle.rbbi_positions.specs.Walks.{FrontsAreExchanged, PrefixesAreWalks, SpelledAreWalks};
ghost use Rattle.rbbi_positions.specs.Walks.{FrontWalksAreSpelled};

/// The positions of a list that a rule spells are those of its leaves.
pub fn spelled_are_of_the_rule()
    ensures { SpelledAreOfTheRule }
{}

/// Two lists that are spelled, with a position in common, may be exchanged after it. For each leaf
/// has a position of its own, so what may come after it doesn't depend on what came before.
pub fn spelled_are_exchanged()
    ensures { SpelledAreExchanged }
{}

/// A list that is spelled and one that a front spells may be exchanged after a common position.
pub fn fronts_are_exchanged()
    ensures { FrontsAreExchanged }
{}

/// The beginnings of the lists that are spelled are the walks from a first position.
pub fn prefixes_are_walks()
    ensures { PrefixesAreWalks }
{}

/// What the rules spell is the walks from a first position to a last one.
pub fn spelled_are_walks()
    ensures { SpelledAreWalks }
{}

/// A walk from a first position to a last one of a front is what the front spells.
pub fn front_walks_are_spelled()
    ensures { FrontWalksAreSpelled }
{}
