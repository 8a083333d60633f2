//! Bytes and numbers, appended to what is printed.
ghost use Rattle.std.specs.Prelude.{decimal};
ghost use Rattle.rbbi_text.specs.Appending.{Appends};

use itoa::Buffer;
use std::alloc::AllocError;

/// Appends bytes. Where memory runs out, a prefix of them was appended.
#[inline]
pub fn append(bytes: &[u8], out: &mut Vec<u8>) -> Result<(), AllocError>
    ensures { Appends out.old.items bytes.now result out.new.items }
{
    out.extend_from_slice(bytes)
}

/// Appends a number in decimal. Where memory runs out, a prefix of it was appended.
pub fn append_number(number: u32, out: &mut Vec<u8>) -> Result<(), AllocError>
    ensures { Appends out.old.items (decimal number) result out.new.items }
{
    let mut buffer = Buffer::new();
    append(buffer.format(number).as_bytes(), out)
}
