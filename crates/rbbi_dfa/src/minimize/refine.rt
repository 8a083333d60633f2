//! Partition refinement in time n log n, after Hopcroft (1971), "An n log n algorithm for
//! minimizing states in a finite automaton".
ghost use Rattle.std.specs.Prelude.{◌≡◌, ◌+◌, ◌<◌, ◌≤◌, ◌==◌, length, map, IfOk};
ghost use Rattle.rbbi_dfa.specs.inner.Automata.{IsDetermined};
ghost use Rattle.rbbi_dfa.specs.inner.Partitions.{IsPartition, AreSides};

use crate::automaton::Automaton;
use crate::minimize::inverse::Inverse;
use crate::minimize::partition::{MOST_ROWS, Partition};
use crate::minimize::tally::Tally;
use crate::minimize::work::Work;
use std::alloc::{AllocError, Global};

/// What says which classes to look at, and in which order. Nothing is proved of it.
#[derive(Drop)]
struct Guide {
    inverse: Inverse,
    work: Work,
    tally: Tally,
}

impl Guide {
    /// Counts for each class its rows that lead by the category to a member.
    fn count(&mut self, classes: &[u16], category: u16, members: &[u16]) -> Result<(), AllocError> {
        self.tally.count(&self.inverse, classes, category, members)
    }
}

/// All classes wait to be split by.
fn guide_of(
    alloc: Global,
    automaton: &Automaton,
    partition: &Partition,
) -> Result<Guide, AllocError>
    requires determined { IsDetermined automaton.now }
    requires room { length partition.now.firsts.items ≤ MOST_ROWS }
{
    Ok(Guide {
        inverse: Inverse::new(alloc, automaton)?,
        work: Work::new(alloc, &partition.classes, partition.firsts.len())?,
        tally: Tally::new(alloc)?,
    })
}

/// Splits classes until no class leads by a category both into some class and not, or until there
/// are more classes than a table may have rows.
///
/// Each split is sound, whatever the order of work. That no more are needed is not proved here: a
/// last round finds what is left.
pub(crate) fn refine(
    alloc: Global,
    automaton: &Automaton,
    partition: &mut Partition,
) -> Result<(), AllocError>
    requires determined { IsDetermined automaton.now }
    requires partition { IsPartition automaton.now partition.old.classes.items
        partition.old.firsts.items }
    requires room { length partition.old.firsts.items ≤ MOST_ROWS }
    ensures partition { IsPartition automaton.now partition.new.classes.items
        partition.new.firsts.items }
    ensures room { length partition.new.firsts.items ≤ MOST_ROWS + 1 }
{
    let mut guide = guide_of(alloc, automaton, partition)?;
    // A class waits once, and one more for each split.
    for _turn in 0..=MOST_ROWS {
        if partition.firsts.len() > MOST_ROWS {
            return Ok(());
        }
        let Some(splitter) = guide.work.next() else {
            return Ok(());
        };
        split_by(alloc, automaton, partition, &mut guide, splitter)?;
    }
    Ok(())
}

/// Splits every class of which some rows lead by a category into the splitter as it is now.
fn split_by(
    alloc: Global,
    automaton: &Automaton,
    partition: &mut Partition,
    guide: &mut Guide,
    splitter: u16,
) -> Result<(), AllocError>
    requires determined { IsDetermined automaton.now }
    requires partition { IsPartition automaton.now partition.old.classes.items
        partition.old.firsts.items }
    requires room { length partition.old.firsts.items ≤ MOST_ROWS + 1 }
    ensures partition { IsPartition automaton.now partition.new.classes.items
        partition.new.firsts.items }
    ensures room { length partition.new.firsts.items ≤ MOST_ROWS + 1 }
{
    let inside = side_of(alloc, &partition.classes, splitter)?;
    let members = members_of(alloc, &partition.classes, splitter)?;
    split_along(alloc, automaton, partition, guide, &members, &inside)
}

/// Splits every class of which some rows lead by a category to these members, and others don't.
fn split_along(
    alloc: Global,
    automaton: &Automaton,
    partition: &mut Partition,
    guide: &mut Guide,
    members: &[u16],
    inside: &[bool],
) -> Result<(), AllocError>
    requires determined { IsDetermined automaton.now }
    requires partition { IsPartition automaton.now partition.old.classes.items
        partition.old.firsts.items }
    requires room { length partition.old.firsts.items ≤ MOST_ROWS + 1 }
    requires sides { AreSides partition.old.classes.items inside.now }
    requires inside { length inside.now ≡ length automaton.now.rows }
    ensures partition { IsPartition automaton.now partition.new.classes.items
        partition.new.firsts.items }
    ensures room { length partition.new.firsts.items ≤ MOST_ROWS + 1 }
{
    for category in 0..automaton.categories {
        guide.count(&partition.classes, category, members)?;
        split_touched(alloc, automaton, partition, guide, category, inside)?;
    }
    Ok(())
}

/// Splits the classes that were touched by a category, where not all of their rows were counted.
fn split_touched(
    alloc: Global,
    automaton: &Automaton,
    partition: &mut Partition,
    guide: &mut Guide,
    category: u16,
    inside: &[bool],
) -> Result<(), AllocError>
    requires determined { IsDetermined automaton.now }
    requires partition { IsPartition automaton.now partition.old.classes.items
        partition.old.firsts.items }
    requires room { length partition.old.firsts.items ≤ MOST_ROWS + 1 }
    requires category { category < automaton.now.categories }
    requires sides { AreSides partition.old.classes.items inside.now }
    requires inside { length inside.now ≡ length automaton.now.rows }
    ensures partition { IsPartition automaton.now partition.new.classes.items
        partition.new.firsts.items }
    ensures sides { AreSides partition.new.classes.items inside.now }
    ensures room { length partition.new.firsts.items ≤ MOST_ROWS + 1 }
{
    while let Some((class, count)) = guide.tally.take() {
        let known = (class as usize) < partition.firsts.len();
        if known && partition.firsts.len() <= MOST_ROWS && count < guide.work.size(class) {
            let left = partition.split(alloc, automaton, class, category, inside)?;
            if left > 0 {
                guide.work.note_split(class, left)?;
            }
        }
    }
    Ok(())
}

/// For each row, whether it is of the class.
pub(crate) fn side_of(alloc: Global, classes: &[u16], class: u16) -> Result<Vec<bool>, AllocError>
    ensures exact { IfOk result (λ inside. inside.items ≡ map (λ of. of == class) classes.now) }
    ensures sides { IfOk result (λ inside. AreSides classes.now inside.items) }
    ensures length { IfOk result (λ inside. length inside.items ≡ length classes.now) }
{
    let mut inside = Vec::with_capacity(alloc, classes.len())?;
    for of in classes {
        inside.push(*of == class)?;
    }
    Ok(inside)
}

/// The rows of the class.
fn members_of(alloc: Global, classes: &[u16], class: u16) -> Result<Vec<u16>, AllocError>
    requires { length classes.now ≤ 65535 }
{
    let mut members = Vec::new(alloc);
    for (row, of) in classes.iter().enumerate() {
        if *of == class {
            members.push(row as u16)?;
        }
    }
    Ok(members)
}
