//! Numbers of more than 32 bits, appended to what is printed.
ghost use Rattle.std.specs.Prelude.{◌≡◌, ◌++◌, OnOk, decimal};

use itoa::Buffer;
use rbbi_text::append;
use std::alloc::AllocError;

/// Appends a number in decimal.
pub(crate) fn append_long(number: u64, out: &mut Vec<u8>) -> Result<(), AllocError>
    ensures { OnOk result (out.new.items ≡ out.old.items ++ decimal number) }
{
    let mut buffer = Buffer::new();
    append(buffer.format(number).as_bytes(), out)
}
