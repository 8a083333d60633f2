//! The options between the word of a command and its first operand.
ghost use Rattle.std.specs.Prelude.{◌≡◌, ◌≢◌, ◌++◌, ◌∷◌, [], ℕ, List, length, codes, map, drop};
ghost use Rattle.std.specs.Prelude.{MatchOption, MatchBool, IfOk, ◌≤◌};
ghost use Rattle.std.specs.List.{list_all, list_any};
ghost use Rattle.std.specs.Char.{is_ascii_alphanumeric};
ghost use Rattle.std.specs.String.{string_bytes};
ghost use Rattle.rbbi_command.specs.declared.words.setting.Property.{Property};
ghost use Rattle.rbbi_command.specs.declared.words.setting.Setting.{Setting};
ghost use Rattle.rbbi_model.specs.declared.unit.Unit.{Unit as TextUnit};
ghost use Rattle.rbbi_command.specs.Settings as spec;

use crate::{Name, Role, Source};
use rbbi_text::Unit;
use std::alloc::{AllocError, Global};

/// A property file that an option names.
#[derive(Drop)]
pub struct Property {
    /// The name of the property, under which its rows are found.
    pub name: Name,
    /// The name of the file.
    pub file: Name,
}

/// What a filter file has.
#[derive(Clone, Copy)]
pub enum FilterKind {
    /// Abbreviations, after which boundaries are suppressed.
    Abbreviations,
    /// Pairs, by which characters are mapped before boundaries are looked for.
    Pairs,
}

/// An option and what it takes.
#[derive(Drop)]
pub(super) enum Setting {
    /// Use a property file.
    HandIn(Property),
    /// Let `$dictionary` be a variable like others.
    IgnoreDictionary,
    /// Take the first operand as a table file.
    ByTable,
    /// Count places, numbers and lengths in a unit.
    CountIn(Unit),
    /// Suppress boundaries after the abbreviations of the file with this name.
    Suppress(Name),
    /// Look for boundaries in the text as the pairs of the file with this name map it.
    Tailor(Name),
}

impl Setting {
    /// How many words it has.
    fn words(&self) -> usize
        ensures { result ≡ length (spec.spelled self.now) }
    {
        match self {
            Setting::IgnoreDictionary | Setting::ByTable => 1,
            _ => 2,
        }
    }

    /// The file that it names to be read.
    pub(super) fn source(&self, alloc: Global) -> Result<Option<Source>, AllocError>
        ensures { IfOk result (λ source. source ≡ spec.source_in self.now) }
    {
        let (role, name) = match self {
            Setting::HandIn(property) => (Role::Property, &property.file),
            Setting::Suppress(file) | Setting::Tailor(file) => (Role::Filter, file),
            _ => return Ok(None),
        };
        let name = Name::new(alloc, name.as_str())?;
        Ok(Some(Source { role, name }))
    }
}

fn has_letter_or_digit(name: &[u8]) -> bool
    ensures { result ≡ list_any is_ascii_alphanumeric name.now }
{
    name.iter().any(|byte| byte.is_ascii_alphanumeric())
}

fn are_name_bytes(name: &[u8]) -> bool
    ensures { result ≡ list_all spec.is_property_name_byte name.now }
{
    name.iter().all(|byte| byte.is_ascii_alphanumeric() || matches!(*byte, b' ' | b'_' | b'-'))
}

/// Whether it is the name of a property: letters, digits, spaces, `_` and `-` of ASCII, with a
/// letter or digit among them.
fn is_property_name(name: &str) -> bool
    ensures { result ≡ spec.is_property_name name.now }
{
    has_letter_or_digit(name.as_bytes()) && are_name_bytes(name.as_bytes())
}

/// The property file of an argument `NAME=FILE`, or `None` if it isn't of this form.
fn property_of(alloc: Global, word: &str) -> Result<Option<Setting>, AllocError>
    ensures { IfOk result (λ found. MatchOption found
        ((property : Property) → spec.IsSetting (Setting.HandIn property)
        → word.now ≢ property.name ++ 61 ∷ property.file)
        (λ setting. spec.IsSetting setting
        × (spec.spelled setting ≡ codes "--prop" ∷ word.now ∷ []))) }
{
    let Some((name, file)) = word.split_once('=') else {
        return Ok(None);
    };
    if !is_property_name(name) {
        return Ok(None);
    }
    if file.is_empty() {
        return Ok(None);
    }
    let name = Name::new(alloc, name)?;
    let file = Name::new(alloc, file)?;
    Ok(Some(Setting::HandIn(Property { name, file })))
}

/// The option on the unit that a word names, where it names one.
fn unit_of(word: &str) -> Option<Setting>
    ensures { MatchOption result ((unit : TextUnit) → word.now ≢ spec.unit_word unit)
        (λ setting. spec.IsSetting setting
        × (spec.spelled setting ≡ codes "--units" ∷ word.now ∷ [])) }
{
    match word {
        "chars" => Some(Setting::CountIn(Unit::Chars)),
        "utf8" => Some(Setting::CountIn(Unit::Utf8)),
        "utf16" => Some(Setting::CountIn(Unit::Utf16)),
        _ => None,
    }
}

/// The option that these words begin with, where they begin with one.
fn setting_of(alloc: Global, words: &[String]) -> Result<Option<Setting>, AllocError>
    ensures { IfOk result (λ found. MatchOption found
        ((setting : Setting) (more : List (List ℕ)) → spec.IsSetting setting
        → map string_bytes words.now ≢ spec.spelled setting ++ more)
        (λ setting. spec.IsSetting setting × (map string_bytes words.now ≡ spec.spelled setting
        ++ drop (length (spec.spelled setting)) (map string_bytes words.now)))) }
{
    let Some((first, more)) = words.split_first() else {
        return Ok(None);
    };
    match (first.as_str(), more.first()) {
        ("--ignore-dictionary", _) => Ok(Some(Setting::IgnoreDictionary)),
        ("--table", _) => Ok(Some(Setting::ByTable)),
        ("--prop", Some(word)) => property_of(alloc, word.as_str()),
        ("--units", Some(word)) => Ok(unit_of(word.as_str())),
        ("--suppress", Some(word)) => Ok(Some(Setting::Suppress(Name::new(alloc, word.as_str())?))),
        ("--tailor", Some(word)) => Ok(Some(Setting::Tailor(Name::new(alloc, word.as_str())?))),
        _ => Ok(None),
    }
}

/// The words after the first `count`.
pub(super) fn behind(words: &[String], count: usize) -> &[String]
    requires { count ≤ length words.now }
    ensures { map string_bytes result.now ≡ drop count (map string_bytes words.now) }
{
    words.split_at(count).1
}

/// Whether the first of the words, if there is one, begins as an option does.
fn begins_with_option(words: &[String]) -> bool
    ensures { MatchBool result (¬ spec.BeginsWithoutOption (map string_bytes words.now))
        (spec.BeginsWithoutOption (map string_bytes words.now)) }
{
    match words.first() {
        Some(word) => word.as_str().starts_with("--"),
        None => false,
    }
}

/// Consecutive options.
#[derive(Drop)]
pub(super) struct Settings {
    /// The options, in order.
    pub(super) list: Vec<Setting>,
    /// How many words they have.
    pub(super) words: usize,
}

/// The options that the words begin with, up to the first word that doesn't begin with `--`. `None`
/// if a word before that begins with `--` and is no option.
pub(super) fn settings_of(alloc: Global, words: &[String]) -> Result<Option<Settings>, AllocError>
    ensures { IfOk result (λ found. MatchOption found
        ((settings : List Setting) (rest : List (List ℕ))
        → ¬ spec.BeginWithSettings (map string_bytes words.now) settings rest)
        (λ settings. (settings.words ≤ length words.now)
        × spec.BeginWithSettings (map string_bytes words.now) settings.list.items
        (drop settings.words (map string_bytes words.now)))) }
{
    let mut list = Vec::new(alloc);
    let mut at = 0;
    'options: while begins_with_option(behind(words, at)) {
        let Some(setting) = setting_of(alloc, behind(words, at))? else {
            return Ok(None);
        };
        at += setting.words();
        list.push(setting)?;
    }
    Ok(Some(Settings { list, words: at }))
}
