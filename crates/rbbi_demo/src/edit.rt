//! The edits that are drawn, and the questions between them.
ghost use Rattle.std.specs.Prelude.{◌≡◌, ◌<◌, ◌≤◌, ◌+◌, ◌%◌, ◌^◌, length, OnOk};
ghost use Rattle.rbbi_model.specs.Words.{most_characters};
ghost use Rattle.rbbi_session.specs.Sessions.{boundaries_of};
ghost use Rattle.rbbi_demo.specs.Generator.{drawn, next_state, state_drawn};
ghost use Rattle.rbbi_demo.specs.Edits.{edited_text, places_sum};

use crate::generator::Generator;
use rbbi_session::Session;
use rbbi_text::{Chars, EditErr, Pieces, Steps};
use std::alloc::AllocError;
use std::sync::ledger::Ledger;

/// Draws an edit and makes it: a place in the text, how many characters are removed there, at most
/// two, and a character that is put in their place.
pub(crate) fn edit<L: Ledger>(
    session: &mut Session<'_, Pieces>,
    generator: &mut Generator,
    steps: &mut Steps<L>,
) -> Result<(), AllocError>
    requires { length session.old.state.text < most_characters }
    ensures text { OnOk result (session.new.state.text
        ≡ edited_text generator.old.state session.old.state.text) }
    ensures longer { OnOk result
        (length session.new.state.text ≤ length session.old.state.text + 1) }
    ensures table { session.new.table ≡ session.old.table }
    ensures state { generator.new.state ≡ state_drawn generator.old.state 3 }
{
    let length = session.text().len();
    let at = generator.below(length + 1);
    let remove = generator.below(3).min(length - at);
    let inserted = generator.character();
    let mut bytes = [0; 4];
    match session.replace(at, remove, inserted.encode_utf8(&mut bytes), steps) {
        Ok(()) => Ok(()),
        Err(EditErr::Outside) => unreachable!(),
        Err(EditErr::TooLong) => unreachable!(),
        Err(EditErr::Memory) => Err(AllocError),
    }
}

/// Draws a place, asks for the boundaries round it, and adds up their places. None counts as 0.
pub(crate) fn ask<L: Ledger>(
    session: &mut Session<'_, Pieces>,
    generator: &mut Generator,
    steps: &mut Steps<L>,
) -> u64
    ensures sum { result ≡ places_sum (boundaries_of session.old)
        (drawn generator.old.state 1 % (length session.old.state.text + 1)) }
    ensures small { result < 2 ^ 33 }
    ensures text { session.new.state.text ≡ session.old.state.text }
    ensures table { session.new.table ≡ session.old.table }
    ensures state { generator.new.state ≡ next_state generator.old.state }
{
    let place = generator.below(session.text().len() + 1);
    let after = session.following(place, steps).unwrap_or(0);
    let before = session.preceding(place, steps).unwrap_or(0);
    u64::from(after) + u64::from(before)
}
