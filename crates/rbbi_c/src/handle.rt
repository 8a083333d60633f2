//! What C holds: a pointer to a box, or null.
ghost use Rattle.std.specs.Prelude.{◌≡◌, None, Some, Option, MatchOption};
ghost use Rattle.rbbi_c.specs.declared.held.Held.{Held};

use crate::held::Held;
use crate::loose::Loose;
use std::alloc::Global;
use std::marker::Model;
use std::mem;
use std::ptr::null_mut;

/// A handle, which C keeps and passes by its address. A contract sees what it holds. A null pointer
/// holds nothing.
#[repr(C)]
pub struct Handle {
    at: *mut u8,
    ghost held: { Option Held },
}

impl Model for Handle {
    ghost use Rattle.rbbi_c.specs.Owning.{owns};

    ghost also_owns = { λ handle. owns handle.at handle.held };
}

// It may go to another thread: what it holds says the same to each.
unsafe impl Send for Handle {}

impl Handle {
    /// A handle that holds nothing.
    pub(crate) fn closed() -> Handle
        ensures { result.held ≡ None }
    {
        Handle { at: null_mut() }
    }

    /// The handle of a box.
    pub(crate) fn of(held: Box<Held>) -> Handle
        ensures { result.held ≡ Some held.value }
    {
        may_go::<Held>();
        Handle::of_loose(Loose::of(held))
    }

    /// What the handle holds.
    pub(crate) fn into_box(self, alloc: Global) -> Option<Box<Held>>
        ensures { MatchOption result (self.held ≡ None) (λ held. self.held ≡ Some held.value) }
    {
        match self.into_loose(alloc) {
            Some(loose) => Some(loose.into_box()),
            None => None,
        }
    }

    /// Takes what the handle holds out of it.
    pub(crate) fn take(&mut self, alloc: Global) -> Option<Box<Held>>
        ensures held { MatchOption result (self.old.held ≡ None)
            (λ held. self.old.held ≡ Some held.value) }
        ensures closed { self.new.held ≡ None }
    {
        mem::replace(self, Handle::closed()).into_box(alloc)
    }

    /// Puts a box into the handle, and frees what it held.
    pub(crate) fn put(&mut self, alloc: Global, held: Box<Held>)
        ensures { self.new.held ≡ Some held.value }
    {
        let _former = mem::replace(self, Handle::of(held)).into_box(alloc);
    }

    fn of_loose(loose: Loose<Held, Global>) -> Handle
        ensures { result.held ≡ Some loose.value }
    {
        let Loose { at, alloc: _ } = loose;
        Handle { at: at as *mut u8 }
    }

    fn into_loose(self, alloc: Global) -> Option<Loose<Held, Global>>
        ensures { MatchOption result (self.held ≡ None) (λ loose. self.held ≡ Some loose.value) }
    {
        let Handle { at } = self;
        if at.is_null() {
            return None;
        }
        Some(Loose {
            at: at as *mut Held,
            alloc,
        })
    }
}

/// That values of a type may go to another thread: it is proved where this is called. It does
/// nothing when it runs.
fn may_go<T: Send>() {}
