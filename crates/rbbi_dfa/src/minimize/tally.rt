//! How many rows of each class lead into a splitter.
ghost use Rattle.std.specs.Prelude.{◌≡◌, ◌+◌, length, OnSome};

use crate::minimize::inverse::Inverse;
use crate::minimize::partition::MOST_ROWS;
use std::alloc::{AllocError, Global};

/// How many rows of each class lead into a splitter by a category. It says which classes to look
/// at, and no more: nothing is proved of the counts.
#[derive(Drop)]
pub(crate) struct Tally {
    /// For each class, how many rows were counted.
    counts: Vec<u16>,
    /// The classes of which some row was counted.
    pub touched: Vec<u16>,
}

impl Tally {
    /// Nothing is counted yet.
    pub fn new(alloc: Global) -> Result<Tally, AllocError> {
        let counts = vec![in alloc; 0u16; MOST_ROWS + 1]?;
        let touched = Vec::new(alloc);
        Ok(Tally { counts, touched })
    }

    /// Counts the rows that lead by the category to one of these.
    pub fn count(
        &mut self,
        inverse: &Inverse,
        classes: &[u16],
        category: u16,
        members: &[u16],
    ) -> Result<(), AllocError> {
        for member in members {
            for source in inverse.sources(category, *member) {
                if let Some(class) = classes.get(*source as usize) {
                    self.add(*class)?;
                }
            }
        }
        Ok(())
    }

    /// Counts one more row of the class.
    fn add(&mut self, class: u16) -> Result<(), AllocError> {
        if let Some(count) = self.counts.get_mut(class as usize) {
            if *count == 0 {
                self.touched.push(class)?;
            }
            *count = count.wrapping_add(1);
        }
        Ok(())
    }

    /// A class of which rows were counted, with their number, which it forgets.
    pub fn take(&mut self) -> Option<(u16, u16)>
        ensures { OnSome result
            (length self.new.touched.items + 1 ≡ length self.old.touched.items) }
    {
        let class = self.touched.pop()?;
        let mut taken = 0;
        if let Some(count) = self.counts.get_mut(class as usize) {
            taken = *count;
            *count = 0;
        }
        Some((class, taken))
    }
}
