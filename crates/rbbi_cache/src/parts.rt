//! The parts that an edit leaves of a kept run.
ghost use Rattle.std.specs.Prelude.{◌≡◌, ◌+◌, ◌≤◌, ◌++◌, [], length, map, filter, take, drop};
ghost use Rattle.std.specs.Prelude.{nat_le, nat_lt, false, IfSome, IsTrue};
ghost use Rattle.std.specs.List.{AllByRecursion};
ghost use Rattle.rbbi_model.specs.Words.{most_characters};
ghost use Rattle.rbbi_model.specs.Runs.{ReachesRise};
ghost use Rattle.rbbi_cache.specs.Edits.{left_part, has_entries};
ghost use Rattle.rbbi_cache.specs.Edits.{moved_entry, moved_run, run_behind};
ghost use Rattle.rbbi_cache.specs.inner.Parts.{CanMove, IsMovable, moves_whole, right_part};
ghost use Rattle.rbbi_cache.specs.inner.Parts.{Stays, StaysBehind};

use crate::shown::count_up_to;
use crate::{Entry, Run};

/// An edit of a text, in characters: so many were inserted in place of those removed at a place.
#[derive(Clone, Copy)]
pub(crate) struct Edit {
    pub(crate) at: u32,
    pub(crate) removed: u32,
    pub(crate) inserted: u32,
}

/// How many of the entries, whose reaches don't fall, reach no farther than the place. That is
/// all of them where the last one does.
fn count_reaching(entries: &[Entry], place: u32) -> usize
    requires { ReachesRise entries.now }
    ensures within { result ≤ length entries.now }
    ensures up_to { AllByRecursion (λ entry. entry.reach ≤ place) (take result entries.now) }
    ensures first { take result entries.now
        ≡ filter (λ entry. nat_le entry.reach place) entries.now }
    ensures others { drop result entries.now
        ≡ filter (λ entry. nat_lt place entry.reach) entries.now }
{
    let len = entries.len();
    if len > 0 {
        let last = &entries[len - 1];
        if last.reach <= place {
            return len;
        }
    }
    for (k, entry) in entries.iter().enumerate() {
        if entry.reach > place {
            return k;
        }
    }
    entries.len()
}

/// Begins a run again at an anchor, with no entries.
fn restart(run: &mut Run, anchor: u32, leads: bool)
    ensures { run.new ≡ record { anchor = anchor; entries = []; leads = leads } }
{
    run.begin(anchor);
    if !leads {
        run.follow();
    }
}

/// Adds the entries, moved by an edit before them, but for those that then lie before a place.
fn append_moved(run: &mut Run, entries: &[Entry], edit: Edit, first: u32)
    requires can_move { AllByRecursion (CanMove edit.removed) entries.now }
    requires small { edit.inserted ≤ most_characters }
    requires room { length run.old.entries + length entries.now ≤ 256 }
    ensures { run.new ≡ record run.old {
      entries = run.old.entries
          ++ filter (λ entry. nat_le first entry.at)
          (map (moved_entry edit.removed edit.inserted) entries.now);
    } }
{
    for entry in entries {
        let moved = Entry {
            at: entry.at - edit.removed + edit.inserted,
            status: entry.status,
            reach: entry.reach - edit.removed + edit.inserted,
        };
        if moved.at >= first {
            run.push(moved);
        }
    }
}

/// Whether an edit leaves the whole run as it is: the searches for its entries looked at nothing
/// from the edit on.
pub(crate) fn stays(run: &Run, edit: Edit) -> bool
    requires { IsMovable run.now }
    ensures { IsTrue result → Stays edit.at edit.removed run.now }
{
    let entries = run.entries();
    if entries.len() == 0 || run.anchor() >= edit.at {
        return false;
    }
    if count_reaching(entries, edit.at) < entries.len() {
        return false;
    }
    true
}

/// Whether an edit leaves a run that lies after it as it is: as many characters were inserted as
/// removed, so nothing moves.
pub(crate) fn stays_behind(run: &Run, edit: Edit) -> bool
    requires movable { IsMovable run.now }
    requires within { edit.at + edit.removed ≤ most_characters }
    ensures { IsTrue result → StaysBehind edit.at edit.removed edit.inserted run.now }
{
    if edit.removed != edit.inserted {
        return false;
    }
    if run.len() == 0 || run.anchor() == 0 || run.anchor() < edit.at + edit.removed {
        return false;
    }
    true
}

/// Whether the anchor alone tells that a run has no left part: it isn't before the edit, and each
/// entry lies past it. At an anchor of 0 the first entry may lie there too.
pub(crate) fn has_no_left(run: &Run, edit: Edit) -> bool
    requires { IsMovable run.now }
    ensures { IsTrue result → has_entries (left_part edit.at run.now) ≡ false }
{
    run.anchor() > 0 && run.anchor() >= edit.at
}

/// Copies the left part of a kept run.
pub(crate) fn copy_left(run: &Run, edit: Edit, part: &mut Run)
    requires { IsMovable run.now }
    ensures { part.new ≡ left_part edit.at run.now }
{
    restart(part, run.anchor(), run.leads());
    let left = count_reaching(run.entries(), edit.at);
    part.append(&run.entries()[..left]);
}

/// Copies the whole of a kept run that lies after the edit, moved.
fn copy_moved(run: &Run, edit: Edit, part: &mut Run)
    requires movable { IsMovable run.now }
    requires behind { edit.at + edit.removed ≤ run.now.anchor }
    requires small { edit.inserted ≤ most_characters }
    ensures { part.new ≡ moved_run edit.at edit.removed edit.inserted run.now }
{
    let anchor = run.anchor() - edit.removed + edit.inserted;
    if run.anchor() > 0 {
        restart(part, anchor, run.leads() && anchor > 0);
        append_moved(part, run.entries(), edit, 0);
        return;
    }
    let first = if anchor > 0 { anchor + 2 } else { 0 };
    let left = count_reaching(run.entries(), edit.at);
    restart(part, anchor, run.leads());
    append_moved(part, &run.entries()[left..], edit, first);
}

/// Copies the entries that lie after a safe pair of the new text, moved.
fn copy_behind(run: &Run, edit: Edit, pair: u32, part: &mut Run)
    requires movable { IsMovable run.now }
    requires within { edit.at + edit.removed ≤ most_characters }
    requires small { edit.inserted ≤ most_characters }
    requires pair { pair ≤ most_characters }
    ensures { part.new ≡ run_behind edit.at edit.removed edit.inserted pair run.now }
{
    restart(part, pair, false);
    let before = count_up_to(run.entries(), 0, edit.at + edit.removed);
    append_moved(part, &run.entries()[before..], edit, pair + 2);
}

/// Whether a run is moved whole. A safe pair begins at each anchor but maybe 0.
fn goes_whole(run: &Run, edit: Edit, pair: Option<u32>) -> bool
    requires within { edit.at + edit.removed ≤ most_characters }
    requires small { edit.at + edit.inserted ≤ most_characters }
    ensures { result ≡ moves_whole edit.at edit.removed edit.inserted pair run.now }
{
    if edit.at + edit.removed > run.anchor() {
        return false;
    }
    if run.anchor() > 0 {
        return true;
    }
    match pair {
        Some(place) => place == edit.at + edit.inserted,
        None => false,
    }
}

/// Copies the right part of a kept run, by the first safe pair after the edit.
pub(crate) fn copy_right(run: &Run, edit: Edit, pair: Option<u32>, part: &mut Run)
    requires movable { IsMovable run.now }
    requires within { edit.at + edit.removed ≤ most_characters }
    requires small { edit.at + edit.inserted ≤ most_characters }
    requires pair { IfSome pair (λ q. q ≤ most_characters) }
    ensures { part.new ≡ right_part edit.at edit.removed edit.inserted pair run.now }
{
    if goes_whole(run, edit, pair) {
        copy_moved(run, edit, part);
        return;
    }
    match pair {
        Some(place) => copy_behind(run, edit, place, part),
        None => restart(part, 0, false),
    }
}
