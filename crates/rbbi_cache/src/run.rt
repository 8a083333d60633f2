//! Kept runs: consecutive boundaries that were found from one anchor.
ghost use Rattle.std.specs.Prelude.{◌≡◌, ◌+◌, ◌<◌, ◌≤◌, ◌++◌, [], ◌∷◌, true, false, length, drop};
ghost use Rattle.std.specs.Prelude.{IfOk, if◌then◌else◌, ◌==◌};
ghost use Rattle.rbbi_model.specs.Runs as model;
ghost use Rattle.rbbi_cache.specs.inner.Pushed.{pushed};

use crate::Entry;
use crate::boxed::{Body, Boxed, MOST_ENTRIES};
use std::alloc::{AllocError, Global};
use std::marker::Model;

/// How many of the last entries a full run keeps when it goes on.
const KEPT_ENTRIES: usize = 128;

/// Consecutive boundaries that were found from one anchor. What it has stands in a box that is made
/// once, so that runs change places fast.
#[derive(Drop)]
pub struct Run {
    body: Boxed,
}

impl Model for Run {
    ghost use Rattle.std.specs.Prelude.{◌≡◌, ◌≤◌, take, length};
    ghost use Rattle.rbbi_model.specs.Runs.{Run};

    ghost Value = { Run };

    ghost view = { λ run. record {
      anchor = run.body.anchor;
      entries = take run.body.len run.body.slots;
      leads = run.body.leads;
    } };

    ghost invariant = { λ run. (run.body.len ≤ 256) × (length run.body.slots ≡ 256) };
}

impl Run {
    /// A run with no entries, and room for all that it may get.
    pub(crate) fn empty(alloc: Global) -> Result<Run, AllocError>
        ensures { IfOk result (λ run. run.entries ≡ []) }
    {
        let blank = Entry {
            at: 0,
            status: 0,
            reach: 0,
        };
        let body = Body {
            anchor: 0,
            leads: false,
            len: 0,
            slots: [blank; MOST_ENTRIES],
        };
        Ok(Run {
            body: Boxed::new(alloc, body)?,
        })
    }

    /// The place from which its entries were found.
    pub fn anchor(&self) -> u32
        ensures { result ≡ self.now.anchor }
    {
        self.body.lend().anchor
    }

    /// Its entries, in the order of the text.
    pub fn entries(&self) -> &[Entry]
        ensures { result.now ≡ self.now.entries }
    {
        let body = self.body.lend();
        &body.slots[..body.len]
    }

    /// Begins again at an anchor, with no entries.
    pub(crate) fn begin(&mut self, anchor: u32)
        ensures { self.new ≡ record { anchor = anchor; entries = []; leads = true } }
    {
        let body = self.body.lend_mut();
        body.anchor = anchor;
        body.leads = true;
        body.len = 0;
    }

    /// Adds an entry at the end. A full run first lets go of its first half, and no longer leads.
    pub(crate) fn push(&mut self, entry: Entry)
        ensures { self.new ≡ pushed self.old entry }
    {
        let body = self.body.lend_mut();
        if body.len == MOST_ENTRIES {
            body.slots.copy_within(KEPT_ENTRIES.., 0);
            body.len = MOST_ENTRIES - KEPT_ENTRIES;
            body.leads = false;
        }
        let len = body.len;
        body.slots[len] = entry;
        body.len = len + 1;
    }

    /// Whether nothing found from its anchor lies between the low place and the first entry.
    pub(crate) fn leads(&self) -> bool
        ensures { result ≡ self.now.leads }
    {
        self.body.lend().leads
    }

    /// How many entries it has.
    pub(crate) fn len(&self) -> usize
        ensures exact { result ≡ length self.now.entries }
        ensures most { result ≤ 256 }
    {
        self.body.lend().len
    }

    /// Says that it no longer leads.
    pub(crate) fn follow(&mut self)
        ensures { self.new ≡ record self.old { leads = false } }
    {
        self.body.lend_mut().leads = false;
    }

    /// Adds entries at the end. There is room for them.
    pub(crate) fn append(&mut self, entries: &[Entry])
        requires { length self.old.entries + length entries.now ≤ 256 }
        ensures { self.new ≡ record self.old { entries = self.old.entries ++ entries.now } }
    {
        let body = self.body.lend_mut();
        let len = body.len;
        let slots = &mut body.slots[..];
        slots[len..len + entries.len()].copy_from_slice(entries);
        body.len += entries.len();
    }
}
