//! What an export answers.

/// Done.
pub(crate) const OK: u32 = 0;

/// Done, and there is no such boundary.
pub(crate) const DONE: u32 = 1;

/// The handle holds nothing of the kind that is asked for.
pub(crate) const HANDLE: u32 = 3;

/// The unit is none of 0, 1 and 2.
pub(crate) const UNIT: u32 = 4;

/// An edit reaches past the end of the text.
pub(crate) const OUTSIDE: u32 = 5;

/// An edit begins or ends inside of a character.
pub(crate) const INSIDE: u32 = 6;

/// A text or a file would be too long.
pub(crate) const TOO_LONG: u32 = 7;

/// The bytes of a text are not UTF-8.
pub(crate) const NOT_UTF8: u32 = 8;

/// Memory ran out.
pub(crate) const MEMORY: u32 = 9;

/// The caller's room is too small.
pub(crate) const ROOM: u32 = 10;

/// The rules, a property file or a table have a fault, which is reported.
pub(crate) const FAULT: u32 = 11;

/// No built-in table has this name.
pub(crate) const NAME: u32 = 12;

/// A surrogate of a text in UTF-16 is alone.
pub(crate) const LONE: u32 = 13;

/// The session has a filter, which the call doesn't serve.
pub(crate) const FILTERED: u32 = 14;
