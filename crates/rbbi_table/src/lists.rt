//! Whether the status lists are valid.
ghost use Rattle.std.specs.Prelude.{◌↔◌, IsTrue};
ghost use Rattle.rbbi_model.specs.ValidTables.{IsValidList, IsBefore, AreValidLists};

use crate::NumberList;
use crate::limits::{LARGEST_STATUS, MOST_LISTS, MOST_STATUSES};

/// Whether the numbers rise, are neither too many nor none, and none is too large.
pub(crate) fn is_valid_list(statuses: &[u32]) -> bool
    ensures { IsTrue result ↔ IsValidList statuses.now }
{
    if statuses.is_empty() || statuses.len() > MOST_STATUSES {
        return false;
    }
    let mut previous = statuses[0];
    for status in &statuses[1..] {
        if *status <= previous {
            return false;
        }
        previous = *status;
    }
    previous <= LARGEST_STATUS
}

/// Whether the one list comes before the other in lexicographic order.
pub(crate) fn is_before(these: &[u32], those: &[u32]) -> bool
    ensures { IsTrue result ↔ IsBefore these.now those.now }
{
    let shared = these.len().min(those.len());
    for i in 0..shared {
        let this = these[i];
        let that = those[i];
        if this != that {
            return this < that;
        }
    }
    these.len() < those.len()
}

/// Whether there are lists and not too many, each is valid, the first is 0 alone, and each comes
/// before the next.
pub(crate) fn are_valid_lists(lists: &[NumberList]) -> bool
    ensures { IsTrue result ↔ AreValidLists lists.now }
{
    if lists.is_empty() || lists.len() > MOST_LISTS {
        return false;
    }
    let mut previous = lists[0].as_slice();
    if previous.len() != 1 || previous[0] != 0 {
        return false;
    }
    for list in &lists[1..] {
        let statuses = list.as_slice();
        if !is_valid_list(statuses) || !is_before(previous, statuses) {
            return false;
        }
        previous = statuses;
    }
    true
}
