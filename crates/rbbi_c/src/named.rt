//! What C calls to open a built-in table by its name. `include/rbbi.h` documents this call.
ghost use Rattle.std.specs.Prelude.{◌≢◌, ◌≡◌, MatchOption};
ghost use Rattle.rbbi_c.specs.Named.{NamesThrough, name_of};
ghost use Rattle.rbbi_segment_tables.specs.declared.loading.Kind.{Kind};

use crate::codes;
use crate::handle::Handle;
use crate::loading::keep_table;
use crate::opening::is_open;
use rbbi_segment_tables::{Kind, built_in};
use std::alloc::Global;
use std::rt::Memory;

/// The kind of the built-in table of a name.
fn kind_named(name: &[u8]) -> Option<Kind>
    ensures { MatchOption result ((kind : Kind) → name.now ≢ name_of kind)
        (λ kind. name.now ≡ name_of kind) }
{
    if name == b"grapheme".as_slice() {
        Some(Kind::Grapheme)
    } else if name == b"word".as_slice() {
        Some(Kind::Word)
    } else if name == b"sentence".as_slice() {
        Some(Kind::Sentence)
    } else if name == b"line".as_slice() {
        Some(Kind::Line)
    } else if name == b"line-strict".as_slice() {
        Some(Kind::LineStrict)
    } else if name == b"line-normal".as_slice() {
        Some(Kind::LineNormal)
    } else if name == b"line-loose".as_slice() {
        Some(Kind::LineLoose)
    } else if name == b"line-cj".as_slice() {
        Some(Kind::LineCj)
    } else if name == b"line-normal-cj".as_slice() {
        Some(Kind::LineNormalCj)
    } else if name == b"line-loose-cj".as_slice() {
        Some(Kind::LineLooseCj)
    } else {
        None
    }
}

/// Opens the built-in table of a name.
#[unsafe(no_mangle)]
pub extern "C" fn rbbi_c_table_named(memory: Memory, name: &[u8], table: &mut Handle) -> u32
    ensures { NamesThrough name.now table.old.held result table.new.held }
{
    let alloc = Global::new(memory);
    let Some(kind) = kind_named(name) else {
        return codes::NAME;
    };
    if is_open(alloc, table) {
        return codes::HANDLE;
    }
    match built_in(alloc, kind) {
        Ok(made) => keep_table(alloc, table, made),
        Err(_) => codes::MEMORY,
    }
}
