//! A line of a script.
ghost use Rattle.std.specs.Prelude.{◌++◌, IfOk, codes};
ghost use Rattle.rbbi_script.specs.inner.Readings.{IsCommandOf};

use crate::command::Command;
use crate::escape::word_of;
use crate::pieces::{after, first_field};
use crate::question::other_of;
use rbbi_text::{Word, decimal};
use std::alloc::{AllocError, Global};

/// The command that a line writes, or none where it writes none.
pub(crate) fn command_of(alloc: Global, line: &str) -> Result<Option<Command>, AllocError>
    ensures { IfOk result (IsCommandOf line.now) }
{
    if let Some(fields) = after(line, "insert ") {
        return insert_of(alloc, fields);
    }
    if let Some(fields) = after(line, "delete ") {
        return delete_of(alloc, fields);
    }
    if let Some(fields) = after(line, "replace ") {
        return replace_of(alloc, fields);
    }
    Ok(other_of(line))
}

/// The command of a line that inserts a text at a place.
fn insert_of(alloc: Global, fields: &str) -> Result<Option<Command>, AllocError>
    ensures { IfOk result (IsCommandOf (codes "insert " ++ fields.now)) }
{
    let Some((at, rest)) = first_field(fields) else {
        return Ok(None);
    };
    let Some(text) = word_of(alloc, rest)? else {
        return Ok(None);
    };
    Ok(Some(Command::Replace {
        at,
        remove: 0,
        text,
    }))
}

/// The command of a line that removes characters from a place on.
fn delete_of(alloc: Global, fields: &str) -> Result<Option<Command>, AllocError>
    ensures { IfOk result (IsCommandOf (codes "delete " ++ fields.now)) }
{
    let Some((at, rest)) = first_field(fields) else {
        return Ok(None);
    };
    let Some(remove) = decimal(rest.as_bytes(), u32::MAX) else {
        return Ok(None);
    };
    let text = Word::new(alloc, "")?;
    Ok(Some(Command::Replace { at, remove, text }))
}

/// The command of a line that puts a text in place of characters from a place on.
fn replace_of(alloc: Global, fields: &str) -> Result<Option<Command>, AllocError>
    ensures { IfOk result (IsCommandOf (codes "replace " ++ fields.now)) }
{
    let Some((at, rest)) = first_field(fields) else {
        return Ok(None);
    };
    let Some((remove, rest)) = first_field(rest) else {
        return Ok(None);
    };
    let Some(text) = word_of(alloc, rest)? else {
        return Ok(None);
    };
    Ok(Some(Command::Replace { at, remove, text }))
}
