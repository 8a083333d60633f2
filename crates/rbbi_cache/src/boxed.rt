//! What a run has, in a box that lends nothing but that.
//!
//! A box has an allocator, which it lends too. So the box is private to this file: no other body of
//! this crate can reach an allocator, but for those that `Cache::new` passes one.
ghost use Rattle.std.specs.Prelude.{◌≡◌, IfOk};
ghost use Rattle.std.specs.Borrow.{sem};
ghost use Rattle.rbbi_cache.specs.inner.Boxing.{LendsBody};

use crate::Entry;
use std::alloc::{AllocError, Global};
use std::marker::Model;

/// The most entries of a run.
pub const MOST_ENTRIES: usize = 256;

/// What a run has, with room for all the entries that it may get, of which the first ones are its.
#[derive(Drop)]
pub(crate) struct Body {
    pub(crate) anchor: u32,
    pub(crate) leads: bool,
    pub(crate) len: usize,
    pub(crate) slots: [Entry; MOST_ENTRIES],
}

/// What a run has, in a box.
#[derive(Drop)]
pub(crate) struct Boxed {
    body: Box<Body>,
}

impl Model for Boxed {
    ghost use Rattle.rbbi_cache.specs.declared.boxed.Body.{Body};

    ghost Value = { Body };

    ghost view = { λ boxed. boxed.body.value };
}

impl Boxed {
    /// Puts it into a box.
    pub(crate) fn new(alloc: Global, body: Body) -> Result<Boxed, AllocError>
        ensures { IfOk result (λ boxed. boxed ≡ body) }
    {
        Ok(Boxed {
            body: Box::new(alloc, body)?,
        })
    }

    /// What is in it.
    #[inline(always)]
    pub(crate) fn lend(&self) -> &Body
        ensures { result.now ≡ self.now }
    {
        &self.body
    }

    /// What is in it, for a change.
    #[inline(always)]
    pub(crate) fn lend_mut(&mut self) -> &mut Body
        ensures* lends { sem 𝓛 (LendsBody self.entry result) }
        ensures body { result.now ≡ self.old }
    {
        &mut self.body
    }
}
