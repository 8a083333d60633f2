//! Numbers as bytes, the byte of least value first.
ghost use Rattle.std.specs.Prelude.{◌≡◌, ◌+◌, ◌*◌, ◌^◌, ◌<◌, ◌≤◌, ◌++◌, length, OnOk, flat_map};
ghost use Rattle.rbbi_model.specs.TableFile.{u16 as two_bytes, u32 as four_bytes, little_endian};
ghost use Rattle.rbbi_file.specs.Lengths.{u16_at as number_in_two, u32_at as number_in_four};
ghost use Rattle.rbbi_file.specs.inner.Reading.{Stand};

use std::alloc::{AllocError, Global};

/// Adds a number in two bytes.
pub(crate) fn put_u16(out: &mut Vec<u8>, n: u16) -> Result<(), AllocError>
    ensures { OnOk result (out.new.items ≡ out.old.items ++ two_bytes n) }
{
    out.extend_from_slice(&n.to_le_bytes())
}

/// Adds a number in four bytes.
pub(crate) fn put_u32(out: &mut Vec<u8>, n: u32) -> Result<(), AllocError>
    ensures { OnOk result (out.new.items ≡ out.old.items ++ four_bytes n) }
{
    out.extend_from_slice(&n.to_le_bytes())
}

/// Adds a number in one or two bytes: in one, the least.
fn put_sized(out: &mut Vec<u8>, size: usize, n: u16) -> Result<(), AllocError>
    requires some { 1 ≤ size }
    requires few { size ≤ 2 }
    ensures { OnOk result (out.new.items ≡ out.old.items ++ little_endian size n) }
{
    if size == 1 {
        out.push((n % 256) as u8)?;
        Ok(())
    } else {
        put_u16(out, n)
    }
}

/// Adds numbers, each in one or two bytes.
pub(crate) fn put_all_sized(out: &mut Vec<u8>, size: usize, list: &[u16]) -> Result<(), AllocError>
    requires some { 1 ≤ size }
    requires few { size ≤ 2 }
    ensures { OnOk result
        (out.new.items ≡ out.old.items ++ flat_map (little_endian size) list.now) }
{
    for n in list {
        put_sized(out, size, *n)?;
    }
    Ok(())
}

/// Adds numbers, each in four bytes.
pub(crate) fn put_u32s(out: &mut Vec<u8>, numbers: &[u32]) -> Result<(), AllocError>
    ensures { OnOk result (out.new.items ≡ out.old.items ++ flat_map four_bytes numbers.now) }
{
    for n in numbers {
        put_u32(out, *n)?;
    }
    Ok(())
}

/// The number in the two bytes at a place.
pub(crate) fn u16_at(bytes: &[u8], at: usize) -> u16
    requires { at + 2 ≤ length bytes.now }
    ensures value { result ≡ number_in_two bytes.now at }
    ensures stands { Stand bytes.now (two_bytes result) at (at + 2) }
{
    u16::from_le_bytes([bytes[at], bytes[at + 1]])
}

/// The number in the one or two bytes at a place.
pub(crate) fn sized_at(bytes: &[u8], size: usize, at: usize) -> u16
    requires some { 1 ≤ size }
    requires few { size ≤ 2 }
    requires whole { at + size ≤ length bytes.now }
    ensures stands { Stand bytes.now (little_endian size result) at (at + size) }
    ensures fits { result < 256 ^ size }
{
    if size == 1 {
        bytes[at] as u16
    } else {
        u16_at(bytes, at)
    }
}

/// The number in the four bytes at a place.
pub(crate) fn u32_at(bytes: &[u8], at: usize) -> u32
    requires { at + 4 ≤ length bytes.now }
    ensures value { result ≡ number_in_four bytes.now at }
    ensures stands { Stand bytes.now (four_bytes result) at (at + 4) }
{
    u32::from_le_bytes([bytes[at], bytes[at + 1], bytes[at + 2], bytes[at + 3]])
}
