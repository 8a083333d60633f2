//! Rules that always end together, and statuses that are never shown.
ghost use Rattle.std.specs.Prelude.{◌≤◌, length};
ghost use Rattle.rbbi_text.specs.Bytes.{most_bytes};

use crate::statements::Statement;
use rbbi_compile::compile;
use rbbi_props::PropTable;
use rbbi_resolve::Rules;
use rbbi_table::Table;
use rbbi_text::MOST_BYTES;
use std::alloc::{AllocError, Global};
use std::collections::BTreeMap;
use std::fmt::Write;

/// Two rules that end after the same texts, and whose statuses differ. Places are in characters
/// from 0.
#[derive(Clone, Copy, PartialEq, Eq)]
pub struct Pair {
    pub earlier: u32,
    pub later: u32,
    pub earlier_status: u32,
    pub later_status: u32,
}

/// A rule whose status is never shown: wherever it ends, a rule with a greater status ends too, as
/// that at `other`. Places are in characters from 0.
#[derive(Clone, Copy, PartialEq, Eq)]
pub struct Hidden {
    pub place: u32,
    pub status: u32,
    pub other: u32,
    pub other_status: u32,
}

/// What the status lists say of rules, if each rule has a status of its own.
#[derive(Drop)]
pub(crate) struct Endings {
    /// The rules that always end together and differ in their statuses.
    pub(crate) together: Vec<Pair>,
    /// The other rules whose status is never shown.
    pub(crate) hidden: Vec<Hidden>,
}

impl Endings {
    /// Those of which nothing is known.
    fn none(alloc: Global) -> Endings {
        Endings {
            together: Vec::new(alloc),
            hidden: Vec::new(alloc),
        }
    }
}

/// A rule's place, with its status.
#[derive(Clone, Copy)]
struct Marked {
    place: u32,
    status: u32,
}

/// The text with a status of its own for each active rule: its number, from 1.
fn numbered(alloc: Global, text: &str, statements: &[Statement<'_>]) -> Result<String, AllocError> {
    let mut made = String::new(alloc);
    let mut left = statements.iter().filter(|statement| statement.is_rule());
    let mut rule = left.next();
    let mut number = 1u32;
    let mut place = 0u32;
    for c in text.chars() {
        let (tag, end) = rule.map_or((u32::MAX, u32::MAX), |here| (here.tag, here.end));
        if place == tag {
            write!(made, " {{{number}}}")?;
            number = number.saturating_add(1);
        }
        if place < tag || end <= place {
            made.push(c)?;
        }
        if place == end {
            rule = left.next();
        }
        place = place.saturating_add(1);
    }
    Ok(made)
}

/// The numbers of the status lists of a table that have this status.
fn lists_with(alloc: Global, table: &Table, status: u32) -> Result<Vec<u16>, AllocError> {
    let mut lists = Vec::new(alloc);
    for i in 0..table.lists() {
        if table.status_list(i).contains(&status) {
            lists.push(i)?;
        }
    }
    Ok(lists)
}

/// The pairs of rules with statuses that end together by a table in which the status of each rule
/// is its number.
fn pairs_of(alloc: Global, rules: &Rules, table: &Table) -> Result<Vec<Pair>, AllocError> {
    let mut pairs = Vec::new(alloc);
    let mut firsts: BTreeMap<Vec<u16>, (u32, u32)> = BTreeMap::new(alloc);
    let mut number = 0u32;
    for i in 0..rules.len() {
        let rule = rules.get(i);
        number = number.saturating_add(1);
        let Some(later_status) = rule.tag else {
            continue;
        };
        let later = rule.place;
        let lists = lists_with(alloc, table, number)?;
        match firsts.get(lists.as_slice()).copied() {
            Some((earlier, earlier_status)) if earlier_status != later_status => {
                pairs.push(Pair {
                    earlier,
                    later,
                    earlier_status,
                    later_status,
                })?;
            }
            Some(_) => {}
            None => {
                firsts.insert(lists, (later, later_status))?;
            }
        }
    }
    Ok(pairs)
}

/// The rule of the greatest status among those whose numbers a list has.
fn greatest_in(rules: &Rules, list: &[u32]) -> Option<Marked> {
    let mut greatest: Option<Marked> = None;
    for number in list {
        let Some(i) = number.checked_sub(1) else {
            continue;
        };
        if i as usize >= rules.len() {
            continue;
        }
        let rule = rules.get(i as usize);
        let Some(status) = rule.tag else {
            continue;
        };
        if greatest.is_none_or(|other| other.status < status) {
            let place = rule.place;
            greatest = Some(Marked { place, status });
        }
    }
    greatest
}

/// The rules of the greatest status of each list of a table, in which the status of each rule is
/// its number.
fn greatest_of(
    alloc: Global,
    rules: &Rules,
    table: &Table,
) -> Result<Vec<Option<Marked>>, AllocError> {
    let mut all = Vec::new(alloc);
    for i in 0..table.lists() {
        all.push(greatest_in(rules, table.status_list(i)))?;
    }
    Ok(all)
}

/// The rule by whose greater status that of a rule is hidden in each of these lists. None if it is
/// the greatest of one, or there are no lists.
fn hidden_by(greatest: &[Option<Marked>], lists: &[u16], status: u32) -> Option<Marked> {
    let mut first = None;
    for list in lists {
        match greatest.get(*list as usize).copied().flatten() {
            Some(other) if status < other.status => first = first.or(Some(other)),
            _ => return None,
        }
    }
    first
}

/// Whether a place is that of a rule of one of the pairs.
fn is_in_pairs(pairs: &[Pair], place: u32) -> bool {
    pairs
        .iter()
        .any(|pair| pair.earlier == place || pair.later == place)
}

/// The rules that are in no pair and whose status is never shown, by a table in which the status of
/// each rule is its number.
fn hidden_of(
    alloc: Global,
    rules: &Rules,
    table: &Table,
    pairs: &[Pair],
) -> Result<Vec<Hidden>, AllocError> {
    let greatest = greatest_of(alloc, rules, table)?;
    let mut hidden = Vec::new(alloc);
    let mut number = 0u32;
    for i in 0..rules.len() {
        let rule = rules.get(i);
        number = number.saturating_add(1);
        let Some(status) = rule.tag else {
            continue;
        };
        let place = rule.place;
        if is_in_pairs(pairs, place) {
            continue;
        }
        let lists = lists_with(alloc, table, number)?;
        if let Some(other) = hidden_by(greatest.as_slice(), lists.as_slice(), status) {
            hidden.push(Hidden {
                place,
                status,
                other: other.place,
                other_status: other.status,
            })?;
        }
    }
    Ok(hidden)
}

/// What the lists of a table say, in which the status of each rule is its number.
fn endings_of(alloc: Global, rules: &Rules, table: &Table) -> Result<Endings, AllocError> {
    let together = pairs_of(alloc, rules, table)?;
    let hidden = hidden_of(alloc, rules, table, together.as_slice())?;
    Ok(Endings { together, hidden })
}

/// The pairs of active rules with statuses that always end together and differ in these, each rule
/// with the first one of those that end where it does, and the other rules whose status is never
/// shown. A rule without a status adds none to those of others.
///
/// The rules are compiled with a status of its own for each, so the status lists of the rows tell
/// which of them end. If that table passes a limit, nothing is found.
pub(crate) fn find_endings(
    alloc: Global,
    text: &str,
    statements: &[Statement<'_>],
    rules: &Rules,
    props: &PropTable,
    ignored: bool,
) -> Result<Endings, AllocError> {
    let numbered = numbered(alloc, text, statements)?;
    if numbered.len() > MOST_BYTES {
        return Ok(Endings::none(alloc));
    }
    match compile(alloc, numbered.as_str(), props, ignored) {
        Ok(table) => endings_of(alloc, rules, &table),
        Err(_) => Ok(Endings::none(alloc)),
    }
}
