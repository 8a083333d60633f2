//! The units in which places of a text are counted.

/// The unit of places, numbers and lengths of a text.
#[derive(Clone, Copy, PartialEq, Eq)]
pub enum Unit {
    /// Characters.
    Chars,
    /// Bytes of the text in UTF-8.
    Utf8,
    /// 16-bit units of the text in UTF-16.
    Utf16,
}
