//! Abbreviations, as a file lists them.
ghost use Rattle.std.specs.Prelude.{◌≡◌, ◌↔◌, ◌≤◌, IsTrue, IfOk, length};
ghost use Rattle.std.specs.List.{AllByRecursion};
ghost use Rattle.rbbi_text.specs.Bytes.{most_bytes};
ghost use Rattle.rbbi_filter.specs.AbbreviationFiles.{IsAbbreviation, ReadsAbbreviations};
ghost use Rattle.rbbi_filter.specs.Abbreviations as spec;

use rbbi_script::is_skipped;
use rbbi_text::{Line, LineValue, LinesErr, Values, read_lines};
use std::alloc::{AllocError, Global};
use std::collections::HashSet;
use std::marker::Model;

/// Why a file of abbreviations is refused: `BadLine` has the first line that is neither skipped nor
/// an abbreviation.
pub type AbbrErr = LinesErr;

/// An abbreviation. Contracts see it as its list of characters.
#[derive(Drop)]
struct Abbreviation {
    characters: Vec<char>,
}

impl Model for Abbreviation {
    ghost use Rattle.std.specs.Prelude.{List, ℕ};

    ghost Value = { List ℕ };

    ghost view = { λ abbreviation. abbreviation.characters.items };
}

impl Abbreviation {
    /// A copy of its characters.
    fn copied(&self, alloc: Global) -> Result<Vec<char>, AllocError>
        ensures { IfOk result (λ characters. characters.items ≡ self.now) }
    {
        let mut characters = Vec::with_capacity(alloc, self.characters.len())?;
        characters.extend_from_slice(&self.characters)?;
        Ok(characters)
    }
}

/// Abbreviations, in the order of their file. Contracts see them as their list.
#[derive(Drop)]
pub struct Abbreviations {
    list: Values<Abbreviation>,
    /// The same abbreviations as a set, so that a question costs no more where they are many.
    members: HashSet<Vec<char>>,
    /// The length of the longest one.
    longest: usize,
}

impl Model for Abbreviations {
    ghost use Rattle.std.specs.Prelude.{List, ℕ, map};
    ghost use Rattle.rbbi_filter.specs.inner.Members.{AreMembers};

    ghost Value = { List (List ℕ) };

    ghost view = { λ abbreviations. abbreviations.list };

    ghost invariant = { λ abbreviations. AreMembers abbreviations.list
        (map (λ member. member.items) abbreviations.members.keys) abbreviations.longest };
}

impl Abbreviations {
    /// The abbreviations of a file.
    ///
    /// The bytes are at most 100,663,296. One U+FEFF at their start isn't part of the file. A line
    /// ends at LF, and one CR before it isn't part of the line. An empty line and one that begins
    /// with `#` are skipped. Every other line is one abbreviation: 1 to 32 characters, of which
    /// neither the first nor the last is a space.
    ///
    /// Refuses `NotUtf8` with the first byte past the longest valid prefix, `BadLine` with the
    /// first line that is neither skipped nor an abbreviation, and `Memory`.
    pub fn read(alloc: Global, bytes: &[u8]) -> Result<Abbreviations, AbbrErr>
        requires { length bytes.now ≤ most_bytes }
        ensures { ReadsAbbreviations bytes.now result }
    {
        match read_lines(alloc, bytes) {
            Ok(list) => Ok(abbreviations_of(alloc, list)?),
            Err(error) => Err(error),
        }
    }

    /// Whether characters end with one of the abbreviations, before which nothing stands or white
    /// space (Pattern_White_Space). Spaces (U+0020) at their end don't count.
    pub fn ends(&self, w: &[char]) -> bool
        ensures { result ≡ spec.ends self.now w.now }
    {
        let w = without_last_spaces(w);
        for len in 0..self.longest.min(w.len()) + 1 {
            let start = w.len() - len;
            if ends_apart(&w[..start]) && self.members.contains(&w[start..]) {
                return true;
            }
        }
        false
    }

    /// The length of the longest abbreviation.
    pub(crate) fn longest(&self) -> usize
        ensures { AllByRecursion (λ member. length member ≤ result) self.now }
    {
        self.longest
    }
}

/// The abbreviations of a list.
fn abbreviations_of(alloc: Global, list: Values<Abbreviation>) -> Result<Abbreviations, AllocError>
    ensures { IfOk result (λ abbreviations. abbreviations ≡ list) }
{
    let mut members = HashSet::new(alloc);
    let mut longest = 0usize;
    for i in 0..list.len() {
        let member = list.get(i).copied(alloc)?;
        longest = longest.max(member.len());
        members.insert(member)?;
    }
    Ok(Abbreviations {
        list,
        members,
        longest,
    })
}

/// The characters without the spaces at their end.
fn without_last_spaces(w: &[char]) -> &[char]
    ensures { result.now ≡ spec.without_last_spaces w.now }
{
    let mut end = w.len();
    while end > 0 && w[end - 1] == ' ' {
        end -= 1;
    }
    &w[..end]
}

/// Whether there are no characters, or the last one is white space.
fn ends_apart(w: &[char]) -> bool
    ensures { result ≡ spec.ends_apart w.now }
{
    w.is_empty() || is_white_space(w[w.len() - 1])
}

/// Whether a character is white space (Pattern_White_Space).
fn is_white_space(c: char) -> bool
    ensures { result ≡ spec.is_white_space c }
{
    (c >= '\u{9}' && c <= '\u{D}')
        || c == ' '
        || c == '\u{85}'
        || (c >= '\u{200E}' && c <= '\u{200F}')
        || (c >= '\u{2028}' && c <= '\u{2029}')
}

impl LineValue for Abbreviation {
    ghost use Rattle.rbbi_filter.specs.AbbreviationFiles.{IsAbbreviationLine};

    ghost IsLine = { IsAbbreviationLine };

    fn from_line(
        alloc: Global,
        line: &str,
        _number: u32,
    ) -> Result<Line<Abbreviation>, AllocError> {
        if is_skipped(line) {
            return Ok(Line::Skipped);
        }
        let characters: Vec<char> = line.chars().collect(alloc)?;
        if !is_abbreviation(&characters) {
            return Ok(Line::Bad);
        }
        Ok(Line::Writes(Abbreviation { characters }))
    }
}

/// Whether these are 1 to 32 characters, of which neither the first nor the last is a space.
fn is_abbreviation(w: &[char]) -> bool
    ensures { IsTrue result ↔ IsAbbreviation w.now }
{
    w.len() >= 1 && w.len() <= 32 && w[0] != ' ' && w[w.len() - 1] != ' '
}
