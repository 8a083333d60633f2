//! What an edit leaves of the kept runs.
ghost use Rattle.std.specs.Prelude.{◌≡◌, ◌+◌, ◌<◌, ◌≤◌, ◌++◌, ◌∷◌, [], length, take, filter};
ghost use Rattle.std.specs.Prelude.{IfSome};
ghost use Rattle.rbbi_model.specs.Words.{most_characters};
ghost use Rattle.rbbi_model.specs.Costs.{edit_cost};
ghost use Rattle.rbbi_cache.specs.Kept.{AreTrueRuns, most_runs};
ghost use Rattle.rbbi_cache.specs.Edits.{left_part, has_entries};
ghost use Rattle.rbbi_cache.specs.inner.Parts.{IsMovable, right_part};
ghost use Rattle.rbbi_cache.specs.Edits.{WereTrue, AreKeptAfterAny};

use crate::anchors::first_pair;
use crate::parts::{Edit, copy_left, copy_right, has_no_left, stays, stays_behind};
use crate::run_list::RunList;
use crate::runs::MOST_RUNS;
use crate::{Cache, Run};
use rbbi_table::Table;
use rbbi_text::{Chars, Steps};
use std::mem;
use std::sync::ledger::Ledger;

/// Adds the left part of a run, unless it has no entry or 16 are there.
fn add_left(run: &Run, edit: Edit, next: &mut [Run], count: usize) -> usize
    requires movable { IsMovable run.now }
    requires room { length next.old ≡ 16 }
    requires most { count ≤ 16 }
    ensures most { result ≤ 16 }
    ensures added { take result next.new
        ≡ take most_runs (take count next.old
        ++ filter has_entries (left_part edit.at run.now ∷ [])) }
{
    if count == MOST_RUNS {
        return count;
    }
    if has_no_left(run, edit) {
        return count;
    }
    let part = &mut next[count];
    copy_left(run, edit, part);
    if part.len() == 0 { count } else { count + 1 }
}

/// Adds the right part of a run, unless it has no entry or 16 are there.
fn add_right(run: &Run, edit: Edit, pair: Option<u32>, next: &mut [Run], count: usize) -> usize
    requires movable { IsMovable run.now }
    requires within { edit.at + edit.removed ≤ most_characters }
    requires small { edit.at + edit.inserted ≤ most_characters }
    requires pair { IfSome pair (λ q. q ≤ most_characters) }
    requires room { length next.old ≡ 16 }
    requires most { count ≤ 16 }
    ensures most { result ≤ 16 }
    ensures added { take result next.new
        ≡ take most_runs (take count next.old
        ++ filter has_entries (right_part edit.at edit.removed edit.inserted pair run.now ∷ [])) }
{
    if count == MOST_RUNS {
        return count;
    }
    let part = &mut next[count];
    copy_right(run, edit, pair, part);
    if part.len() == 0 { count } else { count + 1 }
}

/// Adds a run whole. It changes places with a slot.
fn add_whole(run: &mut Run, next: &mut [Run], count: usize) -> usize
    requires { count < length next.old }
    ensures one_more { result ≡ count + 1 }
    ensures added { take result next.new ≡ take count next.old ++ run.old ∷ [] }
{
    let part = &mut next[count];
    mem::swap(run, part);
    count + 1
}

/// Adds the left and the right part of a run. One that stays as it is isn't copied.
fn add_parts(run: &mut Run, edit: Edit, pair: Option<u32>, next: &mut [Run], count: usize) -> usize
    requires movable { IsMovable run.old }
    requires within { edit.at + edit.removed ≤ most_characters }
    requires small { edit.at + edit.inserted ≤ most_characters }
    requires pair { IfSome pair (λ q. q ≤ most_characters) }
    requires room { length next.old ≡ 16 }
    requires most { count ≤ 16 }
    ensures most { result ≤ 16 }
    ensures added { take result next.new ≡ take most_runs (take most_runs (take count next.old
        ++ filter has_entries (left_part edit.at run.old ∷ []))
        ++ filter has_entries (right_part edit.at edit.removed edit.inserted pair run.old ∷ [])) }
{
    if count < MOST_RUNS && stays(run, edit) {
        return add_whole(run, next, count);
    }
    if count < MOST_RUNS && stays_behind(run, edit) {
        return add_whole(run, next, count);
    }
    let count = add_left(run, edit, next, count);
    add_right(run, edit, pair, next, count)
}

/// Fills the slots with the parts that an edit leaves of the kept runs, and gives their number.
pub(crate) fn keep_edited<T: Chars, L: Ledger>(
    table: &Table,
    text: &T,
    edit: Edit,
    former: &mut [Run],
    next: &mut [Run],
    steps: &mut Steps<L>,
) -> usize
    requires were_true { WereTrue table.now (T.characters text.now)
        edit.at edit.removed edit.inserted former.old }
    requires room { length next.old ≡ 16 }
    ensures most { result ≤ 16 }
    ensures kept { AreKeptAfterAny table.now (T.characters text.now)
        edit.at edit.removed edit.inserted former.old (take result next.new) }
    ensures are_true { AreTrueRuns table.now (T.characters text.now) (take result next.new) }
    ensures more { steps.old ≤ steps.new }
    ensures read { steps.new ≤ steps.old + 1025 }
{
    table.valid();
    let _len = text.len();
    let pair = first_pair(table, text, edit.at + edit.inserted, steps);
    let mut count = 0;
    let mut k = 0;
    while k < former.len() {
        count = add_parts(&mut former[k], edit, pair, next, count);
        k += 1;
    }
    count
}

impl RunList {
    /// Makes this list the parts that an edit leaves of the kept runs.
    fn fill_edited<T: Chars, L: Ledger>(
        &mut self,
        table: &Table,
        text: &T,
        edit: Edit,
        former: &mut RunList,
        steps: &mut Steps<L>,
    )
        requires { WereTrue table.now (T.characters text.now)
            edit.at edit.removed edit.inserted former.old }
        ensures kept { AreKeptAfterAny table.now (T.characters text.now)
            edit.at edit.removed edit.inserted former.old self.new }
        ensures are_true { AreTrueRuns table.now (T.characters text.now) self.new }
        ensures more { steps.old ≤ steps.new }
        ensures read { steps.new ≤ steps.old + 1025 }
    {
        let count = former.count;
        let runs = &mut former.slots[..count];
        self.count = keep_edited(table, text, edit, runs, &mut self.slots, steps);
    }
}

impl Cache {
    /// Tells the cache that its text was edited: from the place `at` on, in characters from 0,
    /// `inserted` characters stand where `removed` characters stood. The text is the one after the
    /// edit.
    ///
    /// Each run is replaced by what was found by searches that looked at nothing from the edit on,
    /// and by what lies after the edit and doesn't depend on it; the first 16 of these are kept.
    /// So a question far from the edit is still answered by a kept run. It reads at most 1,026
    /// characters and takes no memory.
    pub fn edited<T: Chars, L: Ledger>(
        &mut self,
        table: &Table,
        text: &T,
        at: u32,
        removed: u32,
        inserted: u32,
        steps: &mut Steps<L>,
    )
        requires { WereTrue table.now (T.characters text.now) at removed inserted self.old.runs }
        ensures kept { AreKeptAfterAny table.now (T.characters text.now)
            at removed inserted self.old.runs self.new.runs }
        ensures are_true { AreTrueRuns table.now (T.characters text.now) self.new.runs }
        ensures fit { self.new.slashes ≡ self.old.slashes }
        ensures more { steps.old ≤ steps.new }
        ensures cost { steps.new ≤ steps.old + edit_cost }
    {
        let edit = Edit {
            at,
            removed,
            inserted,
        };
        self.next
            .fill_edited(table, text, edit, &mut self.runs, steps);
        self.quiet_to = 0;
        self.apart_to = 0;
        mem::swap(&mut self.runs, &mut self.next);
    }
}
