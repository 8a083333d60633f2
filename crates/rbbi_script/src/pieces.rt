//! Pieces of a line.
ghost use Rattle.std.specs.Prelude.{◌≡◌, ◌≢◌, ◌<◌, ◌∷◌, ◌++◌, ℕ, List, MatchOption};
ghost use Rattle.rbbi_script.specs.Grammar.{IsField};
ghost use Rattle.rbbi_script.specs.inner.Readings.{IsOnlyField, IsFirstCut, HasNone};

use rbbi_text::decimal;

/// What follows a word at the start of a text, where it stands there.
pub(crate) fn after<'a>(text: &'a str, word: &str) -> Option<&'a str>
    ensures { MatchOption result ((rest : List ℕ) → text.now ≢ word.now ++ rest)
        (λ rest. text.now ≡ word.now ++ rest.now) }
{
    text.strip_prefix(word)
}

/// What stands before and after the first of an ASCII character, where the text has one.
pub(crate) fn cut_at(text: &str, at: char) -> Option<(&str, &str)>
    requires { at < 128 }
    ensures { MatchOption result (HasNone at text.now)
        (λ cut. IsFirstCut at text.now cut.0.now cut.1.now) }
{
    text.split_once(at)
}

/// The number up to the first space of a text, and what follows that.
pub(crate) fn first_field(text: &str) -> Option<(u32, &str)>
    ensures { MatchOption result ((n : ℕ) (rest : List ℕ) → ¬ IsField text.now n rest)
        (λ field. IsOnlyField text.now field.0 field.1.now) }
{
    let cut = cut_at(text, ' ')?;
    let number = decimal(cut.0.as_bytes(), u32::MAX)?;
    Some((number, cut.1))
}
