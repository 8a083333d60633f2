//! What is reported of a property that rules ask for and that isn't found.
ghost use Rattle.std.specs.Prelude.{◌≤◌, length};
ghost use Rattle.rbbi_text.specs.Bytes.{most_bytes};

use crate::names::{CATEGORY_GROUPS, GENERAL_CATEGORIES, SCRIPTS};
use crate::property::{PROPERTIES, Property, property_named};
use rbbi_lex::{TokenKind, lex};
use rbbi_props::PropTable;
use std::alloc::{AllocError, Global};
use strsim::levenshtein;

/// What isn't known of a property.
#[derive(Clone, Copy, PartialEq, Eq)]
pub enum Unknown {
    /// No general category, script or binary property has the name, which stands alone.
    Name,
    /// The name is that of a property whose value is missing.
    NoValue(Property),
    /// No property that is built in or given as a file has the name.
    Property,
    /// The property that is built in has no such value.
    Value(Property),
    /// The file that is given for the name has no such value.
    ValueOfFile,
}

/// What isn't known, and up to three names that are near to what was written, the nearest first.
#[derive(Drop)]
pub struct Advice {
    pub unknown: Unknown,
    pub near: Vec<&'static str>,
}

/// At most this many names are reported.
const MOST: usize = 3;

/// At most this many edits lead to a name that is near.
const EDITS: usize = 2;

/// The advice on the property at a place of a rule file, in characters from 0, with the files that
/// are given. None if no property stands there.
pub fn advice_at(
    alloc: Global,
    text: &str,
    place: u32,
    given: &PropTable,
) -> Result<Option<Advice>, AllocError>
    requires { length text.now ≤ most_bytes }
{
    let Ok(tokens) = lex(alloc, text) else {
        return Ok(None);
    };
    for i in 0..tokens.len() {
        let token = tokens.get(i);
        if token.place == place
            && let TokenKind::Prop { name, value, .. } = &token.kind
        {
            let value = value.as_ref().map(|value| value.as_str());
            return Ok(Some(advice_on(alloc, name.as_str(), value, given)?));
        }
    }
    Ok(None)
}

/// The advice on a property.
fn advice_on(
    alloc: Global,
    name: &str,
    value: Option<&str>,
    given: &PropTable,
) -> Result<Advice, AllocError> {
    let none = Vec::new(alloc);
    let Some(value) = value else {
        return match property_named(name) {
            Some(property) => Ok(told(Unknown::NoValue(property), none)),
            None => {
                let lists = [GENERAL_CATEGORIES.as_slice(), &CATEGORY_GROUPS, &SCRIPTS];
                Ok(told(Unknown::Name, nearest(alloc, &lists, name)?))
            }
        };
    };
    if given.has_file(alloc, name)? {
        return Ok(told(Unknown::ValueOfFile, none));
    }
    match property_named(name) {
        Some(property) => {
            let near = nearest(alloc, &[property.values()], value)?;
            Ok(told(Unknown::Value(property), near))
        }
        None => {
            let names = PROPERTIES.map(|property| property.names());
            Ok(told(Unknown::Property, nearest(alloc, &[&names], name)?))
        }
    }
}

fn told(unknown: Unknown, near: Vec<&'static str>) -> Advice {
    Advice { unknown, near }
}

/// The names that are near to what was written, at most one of each text of names.
fn nearest(
    alloc: Global,
    lists: &[&[&'static str]],
    written: &str,
) -> Result<Vec<&'static str>, AllocError> {
    let written = loose(alloc, written)?;
    let mut near = Vec::new(alloc);
    for edits in 1..EDITS + 1 {
        for list in lists {
            for names in *list {
                push_at(&mut near, names, edits, &written)?;
            }
        }
    }
    Ok(near)
}

/// Adds the nearest of the names in a text, if it is so many edits away and there is room.
fn push_at(
    near: &mut Vec<&'static str>,
    names: &'static str,
    edits: usize,
    written: &str,
) -> Result<(), AllocError> {
    let alloc = *near.allocator();
    let mut nearest = None;
    let mut least = EDITS + 1;
    for name in names.split(' ') {
        let distance = distance_to(alloc, name, written)?;
        if distance < least {
            least = distance;
            nearest = Some(name);
        }
    }
    if let Some(name) = nearest
        && least == edits
        && near.len() < MOST
    {
        near.push(name)?;
    }
    Ok(())
}

/// How many edits lead from what was written to a name, if these are few for its length. A name
/// that goes on from it counts as near too.
fn distance_to(alloc: Global, name: &str, written: &str) -> Result<usize, AllocError> {
    let name = loose(alloc, name)?;
    let edits = levenshtein(alloc, written, name.as_str())?;
    if edits <= written.len() / 2 {
        return Ok(edits);
    }
    if written.len() > 1 && name.starts_with(written) {
        return Ok(EDITS);
    }
    Ok(EDITS + 1)
}

/// The loose form: in lower case, without spaces, `_` and `-`.
fn loose(alloc: Global, text: &str) -> Result<String, AllocError> {
    let mut form = String::new(alloc);
    for c in text.chars() {
        if !matches!(c, ' ' | '_' | '-') {
            form.push(c.to_ascii_lowercase())?;
        }
    }
    Ok(form)
}
