//! What holds of the grammar itself.
ghost use Rattle.std.specs.Prelude.{◌≡◌, ℕ, List, ◌⊎◌};
ghost use Rattle.rbbi_lex.specs.declared.token.Token.{Token};
ghost use Rattle.rbbi_tree.specs.declared.error.TreeErr.{TreeErr};
ghost use Rattle.rbbi_tree.specs.Trees.{StatementTree};
ghost use Rattle.rbbi_tree.specs.Grammar.{HasOneReading, IsFile};
ghost use Rattle.rbbi_tree.specs.Brackets.{IsDeepAt, IsShallow};
ghost use Rattle.rbbi_tree.specs.Refusals.{IsSyntaxAt, IsFaultOf};

/// Law: a list of tokens is a rule file in at most one way.
pub fn at_most_one_reading()
    ensures { (tokens : List Token) → HasOneReading tokens }
{}

/// Law: a list of tokens has a fault of syntax at one token at most, or at its end.
pub fn at_most_one_fault()
    ensures { (tokens : List Token) (k l : ℕ) → IsSyntaxAt tokens k → IsSyntaxAt tokens l → k ≡ l }
{}

/// Law: at most one token of a list is the first bracket that makes 65 open ones.
pub fn at_most_one_deep()
    ensures { (tokens : List Token) (k l : ℕ) → IsDeepAt tokens k → IsDeepAt tokens l → k ≡ l }
{}

/// Law: a list of tokens is a rule file in which no bracket makes 65 open ones, or it has a fault.
pub fn file_or_fault()
    ensures { (tokens : List Token) (end : ℕ) → ((statements : List StatementTree) × IsFile
        tokens statements × IsShallow tokens) ⊎ ((fault : TreeErr) × IsFaultOf tokens end fault) }
{}

/// Law: a rule file in which no bracket makes 65 open ones has no fault.
pub fn file_excludes_fault()
    ensures { (tokens : List Token) (end : ℕ) (statements : List StatementTree) (fault : TreeErr) →
        IsFile tokens statements → IsShallow tokens → IsFaultOf tokens end fault → ⊥ }
{}

/// Law: a list of tokens has at most one fault, at one place.
pub fn at_most_one_refusal()
    ensures { (tokens : List Token) (end : ℕ) (these those : TreeErr) →
        IsFaultOf tokens end these → IsFaultOf tokens end those → these ≡ those }
{}
