//! What holds of the definitions themselves.
ghost use Rattle.std.specs.Prelude.{List};
ghost use Rattle.rbbi_resolve.specs.declared.fault.Fault.{Fault};
ghost use Rattle.rbbi_resolve.specs.Laws.{HasMeaningOrFault, HasNotBoth, HasOneMeaning};
ghost use Rattle.rbbi_resolve.specs.Laws.{MeansLawfulRules, NotesLeast};
ghost use Rattle.rbbi_resolve.specs.Laws.{HasNoCharacterIfEmpty, SpellsEmptyIfTreeDoes};

use rbbi_sets::members_determine;

/// Law: a rule file means one list of rules at most.
pub fn at_most_one_meaning()
    ensures { HasOneMeaning }
{
    members_determine();
}

/// Law: of a list of faults the earliest is kept when they are noted one after another, that is the
/// one of least place, and at one place that of the first kind.
pub fn the_earliest_is_noted()
    ensures { (faults : List Fault) → NotesLeast faults }
{}

/// Law: the rules that a rule file means are lawful.
pub fn meaning_is_lawful()
    ensures { MeansLawfulRules }
{}

/// Law: a rule file means rules or has a fault.
pub fn meaning_or_fault()
    ensures { HasMeaningOrFault }
{}

/// Law: a rule file that means rules has no fault.
pub fn meaning_excludes_faults()
    ensures { HasNotBoth }
{}

/// Law: a set of a file holds no character, as the faults have it, exactly if no code point but
/// surrogates is in it.
pub fn empty_sets_hold_no_character()
    ensures { HasNoCharacterIfEmpty }
{}

/// Law: a front or a rest spells the empty word, as the faults have it, exactly if its rule tree
/// spells it.
pub fn empty_fronts_spell_the_empty_word()
    ensures { SpellsEmptyIfTreeDoes }
{}
