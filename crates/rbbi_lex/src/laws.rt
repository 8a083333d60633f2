//! Laws of the tokens and the faults of a text. The functions carry no code: each states a law as
//! its contract.
ghost use Rattle.std.specs.Prelude.{◌≡◌, ℕ, List, ◌⊎◌, length};
ghost use Rattle.rbbi_lex.specs.declared.token.Token.{Token};
ghost use Rattle.rbbi_lex.specs.declared.stretch.Stretch.{Stretch};
ghost use Rattle.rbbi_lex.specs.Stretches.{stretch_end, IsLongestStretch};
ghost use Rattle.rbbi_lex.specs.Faults.{Fault};
ghost use Rattle.rbbi_lex.specs.Lexing.{AreTokens, IsLexFault};
ghost use Rattle.rbbi_lex.specs.Places.{PlacesRise};

/// A text has at most one list of tokens.
pub fn tokens_are_unique()
    ensures { (x : List ℕ) (ts us : List Token) → AreTokens x ts → AreTokens x us → ts ≡ us }
{}

/// A text has at most one first fault.
pub fn faults_are_unique()
    ensures { (x : List ℕ) (f g : Fault) (i j : ℕ) → IsLexFault x f i → IsLexFault x g j
        → (f ≡ g) × (i ≡ j) }
{}

/// No text has both tokens and a fault.
pub fn tokens_exclude_faults()
    ensures { (x : List ℕ) (ts : List Token) (f : Fault) (i : ℕ) → AreTokens x ts
        → IsLexFault x f i → ⊥ }
{}

/// Each text has tokens or a fault.
pub fn tokens_or_fault()
    ensures { (x : List ℕ) → ((ts : List Token) × AreTokens x ts)
        ⊎ ((f : Fault) × (i : ℕ) × IsLexFault x f i) }
{}

/// The places of the tokens of a text rise strictly, and are less than the number of its
/// characters.
pub fn places_rise()
    ensures { (x : List ℕ) (ts : List Token) → AreTokens x ts → PlacesRise 0 (length x) ts }
{}

/// A stretch ends at the first place, from where it begins on, at which it doesn't go on.
pub fn stretches_are_longest()
    ensures { (stretch : Stretch) (x : List ℕ) (i : ℕ) →
        IsLongestStretch stretch x i (stretch_end stretch x i) }
{}
