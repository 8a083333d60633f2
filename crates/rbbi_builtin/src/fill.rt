//! What is added to property files for the properties that rules ask for.
ghost use Rattle.std.specs.Prelude.{◌≤◌, length, OnOk};
ghost use Rattle.std.specs.List.{All};
ghost use Rattle.std.specs.Str.{chars};
ghost use Rattle.rbbi_text.specs.Bytes.{most_bytes};
ghost use Rattle.rbbi_builtin.specs.Filling.{AddsBuiltIn, IsAnswered, IsFilled, IsFilledFor};

use crate::property::property_named;
use rbbi_lex::{TokenKind, Tokens, lex};
use rbbi_props::PropTable;
use std::alloc::{AllocError, Global};

/// Adds to a table of property files one for each property that the rules of a text ask for with a
/// value, that is built in, and for whose name there is no file. It goes under that name, with a
/// row for each run of the kit's table under each name of its value.
///
/// General_Category and Script get none: a look-up has them, with their groups, without files. The
/// text has at most 100,663,296 bytes. If it has a fault in its tokens, nothing is added. If memory
/// runs out, some are, after those that were there.
pub fn add_asked_for(alloc: Global, text: &str, files: &mut PropTable) -> Result<(), AllocError>
    requires { length text.now ≤ most_bytes }
    ensures filled { OnOk result (IsFilled (chars text.now) files.old files.new) }
    ensures behind { AddsBuiltIn files.old files.new }
{
    let tokens = match lex(alloc, text) {
        Ok(tokens) => tokens,
        Err(error) => {
            return match error.place() {
                Some(_) => Ok(()),
                None => Err(AllocError),
            };
        }
    };
    add_all(alloc, &tokens, files)
}

/// Adds files for what the tokens ask for.
fn add_all(alloc: Global, tokens: &Tokens, files: &mut PropTable) -> Result<(), AllocError>
    ensures filled { OnOk result (All (λ token. IsFilledFor files.new token.kind) tokens.now) }
    ensures behind { AddsBuiltIn files.old files.new }
{
    for i in 0..tokens.len() {
        add_for(alloc, &tokens.get(i).kind, files)?;
    }
    Ok(())
}

/// Adds a file for what a token asks for.
fn add_for(alloc: Global, kind: &TokenKind, files: &mut PropTable) -> Result<(), AllocError>
    ensures filled { OnOk result (IsFilledFor files.new kind.now) }
    ensures behind { AddsBuiltIn files.old files.new }
{
    match kind {
        TokenKind::Prop {
            name,
            value: Some(_),
            ..
        } => add_named(alloc, name.as_str(), files),
        _ => Ok(()),
    }
}

/// Adds a file for the property of this name.
fn add_named(alloc: Global, name: &str, files: &mut PropTable) -> Result<(), AllocError>
    ensures filled { OnOk result (IsAnswered files.new name.now) }
    ensures behind { AddsBuiltIn files.old files.new }
{
    let Some(property) = property_named(name) else {
        return Ok(());
    };
    if !property.wants_file() || files.has_file(alloc, name)? {
        return Ok(());
    }
    files.add_runs(name, property.runs(), property.values())
}
