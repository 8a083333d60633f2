//! Properties that are asked for.
ghost use Rattle.std.specs.Prelude.{◌≡◌, IfOk, IsTrue, string_bytes, chars, option_map};
ghost use Rattle.rbbi_resolve.specs.inner.Questions.{IsFor};

use rbbi_props::{are_alike, push_common_form};
use rbbi_text::Word;
use std::alloc::{AllocError, Global};

/// Room for the key of most properties.
const FIRST_ROOM: usize = 48;

/// A property that is asked for, as it was spelled the first time.
#[derive(Drop)]
pub(crate) struct Question {
    pub(crate) negated: bool,
    pub(crate) name: String,
    pub(crate) value: Option<String>,
}

impl Question {
    /// Whether it asks for a property, in whatever spelling: a look-up takes the two alike.
    pub(crate) fn is_for(&self, negated: bool, name: &Word, value: &Option<Word>) -> bool
        ensures { IsTrue result → IsFor self.now negated name.now value.now }
    {
        if self.negated != negated {
            return false;
        }
        let own = self.name.as_str();
        let asked = name.as_str();
        match &self.value {
            Some(own_value) => match value {
                Some(value) => {
                    are_alike(own, Some(own_value.as_str()), asked, Some(value.as_str()))
                }
                None => false,
            },
            None => value.is_none() && are_alike(own, None, asked, None),
        }
    }
}

/// A text for a property, which all its spellings share: another one for each name, value and sign
/// that a look-up distinguishes.
pub(crate) fn key_of(
    alloc: Global,
    negated: bool,
    name: &Word,
    value: &Option<Word>,
) -> Result<String, AllocError> {
    let mut key = String::with_capacity(alloc, FIRST_ROOM)?;
    key.push(if negated { '-' } else { '+' })?;
    push_common_form(&mut key, name.as_str())?;
    if let Some(value) = value {
        push_common_form(&mut key, value.as_str())?;
    }
    Ok(key)
}

/// A copy of a word, if there is one.
pub(crate) fn text_of(alloc: Global, word: &Option<Word>) -> Result<Option<String>, AllocError>
    ensures { IfOk result (λ text. option_map (λ t. chars (string_bytes t)) text ≡ word.now) }
{
    match word {
        Some(word) => Ok(Some(String::from_str(alloc, word.as_str())?)),
        None => Ok(None),
    }
}
