//! What holds of mapped texts, and of the answers of reading abbreviations and pairs. The functions
//! are there for proofs, and do nothing when they run.
ghost use Rattle.std.specs.Prelude.{◌≡◌, ℕ, List};
ghost use Rattle.rbbi_model.specs.Scripts.{splice};
ghost use Rattle.rbbi_filter.specs.declared.pair.Pair.{Pair as Turned};
ghost use Rattle.rbbi_filter.specs.Pairs.{turned};
ghost use Rattle.rbbi_filter.specs.AbbreviationFiles.{ReadsAbbreviations};
ghost use Rattle.rbbi_filter.specs.PairFiles.{ReadsPairs};
ghost use Rattle.rbbi_filter.specs.Laws.{HaveOneAnswer};

/// Law: the map of an edited text is that edit of the mapped text, with what it inserts mapped.
pub fn turned_splices()
    ensures { (pairs : List Turned) (x : List ℕ) (at removed : ℕ) (inserted : List ℕ) →
        turned pairs (splice x at removed inserted)
        ≡ splice (turned pairs x) at removed (turned pairs inserted) }
{}

/// Law: bytes have one answer, unless memory runs out: they are the file of one list of
/// abbreviations, or one fault is reported.
pub fn one_abbreviations()
    ensures { HaveOneAnswer ReadsAbbreviations }
{}

/// Law: bytes have one answer, unless memory runs out: they are the file of one list of pairs, or
/// one fault is reported.
pub fn one_tailoring()
    ensures { HaveOneAnswer ReadsPairs }
{}
