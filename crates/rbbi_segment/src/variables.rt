//! What is reported of a name that isn't assigned, or is assigned twice.
ghost use Rattle.std.specs.Prelude.{◌≤◌, length};
ghost use Rattle.rbbi_text.specs.Bytes.{most_bytes};

use crate::source::position_of;
use crate::unknown::append_near;
use rbbi_lex::{TokenKind, Tokens, lex};
use rbbi_text::{append, append_number};
use std::alloc::{AllocError, Global};
use strsim::levenshtein;

/// What follows the line of an assignment that a name's use stands in.
const IN_ITSELF: &[u8] = b", by a statement that goes on up to here: is a ; missing? ";

/// At most this many names that are near are shown.
const MOST: usize = 3;

/// At most this many edits lead to a name that is near.
const EDITS: usize = 2;

/// The name at a place, if one stands there.
fn name_at(tokens: &Tokens, place: u32) -> Option<&str> {
    for i in 0..tokens.len() {
        let token = tokens.get(i);
        if token.place == place
            && let TokenKind::Name(name) = &token.kind
        {
            return Some(name.as_str());
        }
    }
    None
}

/// The names that are assigned, and where, in the order of the file.
fn assigned<'a>(alloc: Global, tokens: &'a Tokens) -> Result<Vec<(u32, &'a str)>, AllocError> {
    let mut names = Vec::new(alloc);
    for i in 1..tokens.len() {
        let token = tokens.get(i - 1);
        if let (TokenKind::Name(name), TokenKind::Equals) = (&token.kind, &tokens.get(i).kind) {
            names.push((token.place, name.as_str()))?;
        }
    }
    Ok(names)
}

/// The names that are near to what was written.
fn near<'a>(
    alloc: Global,
    names: &[(u32, &'a str)],
    written: &str,
) -> Result<Vec<&'a str>, AllocError> {
    let mut found = Vec::new(alloc);
    for (_, name) in names {
        let edits = levenshtein(alloc, written, *name)?;
        if edits <= EDITS && edits < written.len() && found.len() < MOST {
            found.push(*name)?;
        }
    }
    Ok(found)
}

/// Appends where the name at a place is assigned, or which names are near to it. A name that isn't
/// assigned there may be so further down, or in the statement in which it stands.
pub(crate) fn append_name_advice(
    alloc: Global,
    text: &str,
    is_assigned: bool,
    place: u32,
    out: &mut Vec<u8>,
) -> Result<(), AllocError>
    requires { length text.now ≤ most_bytes }
{
    let Ok(tokens) = lex(alloc, text) else {
        return Ok(());
    };
    let Some(written) = name_at(&tokens, place) else {
        return Ok(());
    };
    let names = assigned(alloc, &tokens)?;
    for (at, name) in &names {
        if *name == written {
            append(b"It is assigned in line ", out)?;
            append_number(position_of(text, *at).row, out)?;
            let is_within = !is_assigned && *at < place;
            return append(if is_within { IN_ITSELF } else { b". " }, out);
        }
    }
    append_near(b"$", &near(alloc, &names, written)?, out)
}
