//! What C calls to ask a session, one function for each question. `include/rbbi.h` documents them.
ghost use Rattle.rbbi_model.specs.Answers as question;
ghost use Rattle.rbbi_c.specs.Calls.{AnswersThrough};

use crate::answering::ask_through;
use crate::asking::Ask;
use crate::handle::Handle;
use std::rt::Memory;

/// Goes to the first boundary, which is 0.
#[unsafe(no_mangle)]
pub extern "C" fn rbbi_c_first(memory: Memory, session: &mut Handle, place: &mut u32) -> u32
    ensures { AnswersThrough session.old.held question.First result
        place.old place.new session.new.held }
{
    ask_through(memory, session, Ask::First, place)
}

/// Goes to the last boundary, which is the text's length.
#[unsafe(no_mangle)]
pub extern "C" fn rbbi_c_last(memory: Memory, session: &mut Handle, place: &mut u32) -> u32
    ensures { AnswersThrough session.old.held question.Last result
        place.old place.new session.new.held }
{
    ask_through(memory, session, Ask::Last, place)
}

/// Goes to the first boundary past the cursor.
#[unsafe(no_mangle)]
pub extern "C" fn rbbi_c_next(memory: Memory, session: &mut Handle, place: &mut u32) -> u32
    ensures { AnswersThrough session.old.held question.Next result
        place.old place.new session.new.held }
{
    ask_through(memory, session, Ask::Next, place)
}

/// Goes to the last boundary before the cursor.
#[unsafe(no_mangle)]
pub extern "C" fn rbbi_c_previous(memory: Memory, session: &mut Handle, place: &mut u32) -> u32
    ensures { AnswersThrough session.old.held question.Previous result
        place.old place.new session.new.held }
{
    ask_through(memory, session, Ask::Previous, place)
}

/// Goes to the first boundary past a number.
#[unsafe(no_mangle)]
pub extern "C" fn rbbi_c_following(
    memory: Memory,
    session: &mut Handle,
    from: u32,
    place: &mut u32,
) -> u32
    ensures { AnswersThrough session.old.held (question.Following from) result
        place.old place.new session.new.held }
{
    ask_through(memory, session, Ask::Following(from), place)
}

/// Goes to the last boundary before a number.
#[unsafe(no_mangle)]
pub extern "C" fn rbbi_c_preceding(
    memory: Memory,
    session: &mut Handle,
    from: u32,
    place: &mut u32,
) -> u32
    ensures { AnswersThrough session.old.held (question.Preceding from) result
        place.old place.new session.new.held }
{
    ask_through(memory, session, Ask::Preceding(from), place)
}

/// Whether a number is a boundary: 1 or 0. The cursor goes to the first boundary from it on.
#[unsafe(no_mangle)]
pub extern "C" fn rbbi_c_is_boundary(
    memory: Memory,
    session: &mut Handle,
    at: u32,
    is: &mut u32,
) -> u32
    ensures { AnswersThrough session.old.held (question.IsBoundary at) result
        is.old is.new session.new.held }
{
    ask_through(memory, session, Ask::IsBoundary(at), is)
}

/// Where the cursor is.
#[unsafe(no_mangle)]
pub extern "C" fn rbbi_c_current(memory: Memory, session: &mut Handle, place: &mut u32) -> u32
    ensures { AnswersThrough session.old.held question.Current result
        place.old place.new session.new.held }
{
    ask_through(memory, session, Ask::Current, place)
}

/// The greatest status of the boundary at the cursor.
#[unsafe(no_mangle)]
pub extern "C" fn rbbi_c_status(memory: Memory, session: &mut Handle, status: &mut u32) -> u32
    ensures { AnswersThrough session.old.held question.Status result
        status.old status.new session.new.held }
{
    ask_through(memory, session, Ask::Status, status)
}
