//! Questions and edits through a handle.
ghost use Rattle.std.specs.Prelude.{◌≡◌, ◌<◌, MatchResult, IsUtf8};
ghost use Rattle.rbbi_c.specs.Asking.{question_of, code_of, number_of};
ghost use Rattle.rbbi_c.specs.Calls.{AnswersThrough, EditsThrough, IsNoText, code_of_edit};

use crate::asking::{Ask, Told};
use crate::codes;
use crate::filter_lending::lend_filtered;
use crate::handle::Handle;
use crate::lending::lend;
use rbbi_session::UnitEditErr;
use rbbi_text::{MOST_BYTES, Steps, utf8_text};
use std::alloc::Global;
use std::marker::Brand;
use std::rt::Memory;
use std::sync::ledger::{Blank, Ledger};

/// Writes what is reported to where C wants it.
fn tell(told: Told, number: &mut u32) -> u32
    ensures code { result ≡ code_of told }
    ensures number { number.new ≡ number_of number.old told }
{
    match told {
        Told::Number(n) => {
            *number = n;
            codes::OK
        }
        Told::Done => codes::DONE,
    }
}

/// Asks the session that a handle holds, with a counter of its own. It takes no memory.
#[inline(always)]
fn ask_counted<L: Ledger>(
    memory: Memory,
    session: &mut Handle,
    asked: Ask,
    number: &mut u32,
    blank: Blank,
) -> u32
    requires name { blank.name ≡ L.name }
    requires parts { blank.parts ≡ L.parts }
    requires some { 0 < blank.parts }
    ensures { AnswersThrough session.old.held (question_of asked) result number.old number.new
        session.new.held }
{
    let alloc = Global::new(memory);
    let Some(mut held) = session.take(alloc) else {
        return codes::HANDLE;
    };
    let mut steps = Steps::<L>::exported(memory, blank);
    let code = match lend(&mut held) {
        Some(desk) => tell(desk.ask(asked, &mut steps), number),
        None => match lend_filtered(&mut held) {
            Some(desk) => tell(desk.ask(asked, &mut steps), number),
            None => codes::HANDLE,
        },
    };
    session.put(alloc, held);
    code
}

/// Asks the session that a handle holds. It takes no memory. Each export has a copy of this in
/// which the question is known.
#[inline(always)]
pub(crate) fn ask_through(memory: Memory, session: &mut Handle, asked: Ask, number: &mut u32) -> u32
    ensures { AnswersThrough session.old.held (question_of asked) result number.old number.new
        session.new.held }
{
    ask_counted::<Brand>(memory, session, asked, number, Blank::new(1))
}

/// The text that bytes from C spell, or the code of the refusal.
pub(crate) fn text_of(bytes: &[u8]) -> Result<&str, u32>
    ensures { MatchResult result (λ text. IsUtf8 bytes.now × (text.now ≡ bytes.now))
        (IsNoText bytes.now) }
{
    if bytes.len() > MOST_BYTES {
        return Err(codes::TOO_LONG);
    }
    match utf8_text(bytes) {
        Ok(text) => Ok(text),
        Err(_) => Err(codes::NOT_UTF8),
    }
}

/// The code of what an edit answers.
pub(crate) fn edit_code(edited: Result<(), UnitEditErr>) -> u32
    ensures { result ≡ code_of_edit edited }
{
    match edited {
        Ok(()) => codes::OK,
        Err(UnitEditErr::Outside) => codes::OUTSIDE,
        Err(UnitEditErr::Inside) => codes::INSIDE,
        Err(UnitEditErr::TooLong) => codes::TOO_LONG,
        Err(UnitEditErr::Memory) => codes::MEMORY,
    }
}

/// Edits the session that a handle holds, with a counter of its own.
fn edit_counted<L: Ledger>(
    memory: Memory,
    session: &mut Handle,
    at: u32,
    remove: u32,
    insert: &[u8],
    blank: Blank,
) -> u32
    requires name { blank.name ≡ L.name }
    requires parts { blank.parts ≡ L.parts }
    requires some { 0 < blank.parts }
    ensures { EditsThrough session.old.held at remove insert.now result session.new.held }
{
    let text = match text_of(insert) {
        Ok(text) => text,
        Err(code) => return code,
    };
    let alloc = Global::new(memory);
    let Some(mut held) = session.take(alloc) else {
        return codes::HANDLE;
    };
    let mut steps = Steps::<L>::exported(memory, blank);
    let code = match lend(&mut held) {
        Some(desk) => edit_code(desk.replace(at, remove, text, &mut steps)),
        None => match lend_filtered(&mut held) {
            Some(desk) => edit_code(desk.replace(at, remove, text, &mut steps)),
            None => codes::HANDLE,
        },
    };
    session.put(alloc, held);
    code
}

/// Edits the session that a handle holds.
pub(crate) fn edit_through(
    memory: Memory,
    session: &mut Handle,
    at: u32,
    remove: u32,
    insert: &[u8],
) -> u32
    ensures { EditsThrough session.old.held at remove insert.now result session.new.held }
{
    edit_counted::<Brand>(memory, session, at, remove, insert, Blank::new(1))
}
