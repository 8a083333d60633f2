//! What is reported of a property that isn't found.

use rbbi_builtin::{Advice, Property, Unknown, VERSION};
use rbbi_text::append;
use std::alloc::AllocError;

/// What is wrong.
pub(crate) fn cause_of(unknown: Unknown) -> &'static str {
    match unknown {
        Unknown::Name | Unknown::Property => "there is no such property",
        Unknown::NoValue(_) => "the value of this property is missing",
        Unknown::Value(_) => "the property has no such value",
        Unknown::ValueOfFile => "the file of this property has no such value",
    }
}

/// Appends the names that are near, as a question, each after a sign.
pub(crate) fn append_near(sign: &[u8], near: &[&str], out: &mut Vec<u8>) -> Result<(), AllocError> {
    if near.is_empty() {
        return Ok(());
    }
    append(b"Did you mean ", out)?;
    for (place, name) in near.iter().enumerate() {
        if place > 0 && place == near.len() - 1 {
            append(b" or ", out)?;
        } else if place > 0 {
            append(b", ", out)?;
        }
        append(sign, out)?;
        append(name.as_bytes(), out)?;
    }
    append(b"? ", out)
}

/// The first of the names in a text.
fn first_of(names: &str) -> &str {
    match names.split_once(' ') {
        Some((first, _)) => first,
        None => names,
    }
}

/// At most this many values are listed.
const MOST: usize = 50;

/// Appends the values of a property, each by its first name, if they are few.
fn append_values(property: Property, out: &mut Vec<u8>) -> Result<(), AllocError> {
    let values = property.values();
    if values.len() > MOST {
        return Ok(());
    }
    append(b" Its values are ", out)?;
    for (place, names) in values.iter().enumerate() {
        if place > 0 {
            append(b", ", out)?;
        }
        append(first_of(names).as_bytes(), out)?;
    }
    append(b".", out)
}

/// Appends how a value of a property is written.
fn append_form(property: Property, out: &mut Vec<u8>) -> Result<(), AllocError> {
    append(b"Write \\p{", out)?;
    append(first_of(property.names()).as_bytes(), out)?;
    append(b"=VALUE} with a value of Unicode ", out)?;
    append(VERSION.as_bytes(), out)?;
    append(b".", out)
}

/// Appends what was expected.
pub(crate) fn append_advice(advice: &Advice, out: &mut Vec<u8>) -> Result<(), AllocError> {
    append_near(b"", &advice.near, out)?;
    match advice.unknown {
        Unknown::Name => append(
            b"A name alone is a general category, a script or a binary property, as \\p{Lu}.",
            out,
        ),
        Unknown::Value(Property::EmojiData) => {
            append(b"Write \\p{Emoji=Extended_Pictographic}.", out)
        }
        Unknown::NoValue(property) | Unknown::Value(property) => {
            append_form(property, out)?;
            if advice.near.is_empty() {
                append_values(property, out)?;
            }
            Ok(())
        }
        Unknown::ValueOfFile => append(b"Spell the value as the file does.", out),
        Unknown::Property => append(
            b"Properties with values are gc, sc, GCB, WB, SB, lb, ea, InCB and ExtPict, and not \
              scx (Script_Extensions); for another give --prop NAME=FILE.",
            out,
        ),
    }
}
