//! Short forms, which tests compare with what is found, byte by byte.

/// What follows this byte, if the form begins with it.
pub(crate) fn after(form: &[u8], byte: u8) -> Option<&[u8]> {
    match form.split_first() {
        Some((first, rest)) if *first == byte => Some(rest),
        _ => None,
    }
}

/// What follows a number of one digit, if the form begins with it.
pub(crate) fn after_number(form: &[u8], number: u32) -> Option<&[u8]> {
    after(form, b'0' + (number % 10) as u8)
}
