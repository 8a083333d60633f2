//! The text that is drawn.
ghost use Rattle.std.specs.Prelude.{◌≡◌, ◌≤◌, chars, string_bytes, IfOk, OnOk};
ghost use Rattle.rbbi_model.specs.Words.{most_characters};
ghost use Rattle.rbbi_demo.specs.Generator.{drawn_text, state_drawn};

use crate::generator::Generator;
use rbbi_text::{Pieces, TextErr, push_character};
use std::alloc::{AllocError, Global};

/// A string of so many drawn characters.
fn drawn_string(alloc: Global, generator: &mut Generator, count: u32) -> Result<String, AllocError>
    ensures text { IfOk result (λ text.
        chars (string_bytes text) ≡ drawn_text generator.old.state count) }
    ensures state { OnOk result
        (generator.new.state ≡ state_drawn generator.old.state count) }
{
    let mut text = String::new(alloc);
    for _drawn in 0..count {
        push_character(&mut text, generator.character())?;
    }
    Ok(text)
}

/// The text of so many drawn characters.
pub(crate) fn drawn(
    alloc: Global,
    generator: &mut Generator,
    count: u32,
) -> Result<Pieces, AllocError>
    requires { count ≤ most_characters }
    ensures text { IfOk result (λ text. text ≡ drawn_text generator.old.state count) }
    ensures state { OnOk result
        (generator.new.state ≡ state_drawn generator.old.state count) }
{
    let text = drawn_string(alloc, generator, count)?;
    match Pieces::new(alloc, text.as_str()) {
        Ok(pieces) => Ok(pieces),
        Err(TextErr::TooManyChars) => unreachable!(),
        Err(TextErr::Memory) => Err(AllocError),
    }
}
