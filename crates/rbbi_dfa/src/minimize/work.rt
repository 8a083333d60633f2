//! The work list of Hopcroft's partition refinement.
ghost use Rattle.std.specs.Prelude.{◌≤◌};

use std::alloc::{AllocError, Global};

/// The classes by which others may still have to be split, and the sizes of classes. It says in
/// which order to work, and no more: nothing is proved of it.
#[derive(Drop)]
pub(crate) struct Work {
    /// The classes to split by, the next one last.
    waiting: Vec<u16>,
    /// For each class, whether it waits.
    waits: Vec<bool>,
    /// For each class, how many rows it has.
    sizes: Vec<u16>,
}

impl Work {
    /// All classes wait.
    pub fn new(alloc: Global, classes: &[u16], count: usize) -> Result<Work, AllocError>
        requires { count ≤ 65535 }
    {
        let mut work = Work {
            waiting: Vec::new(alloc),
            waits: vec![in alloc; true; count]?,
            sizes: vec![in alloc; 0u16; count]?,
        };
        for class in classes {
            if let Some(size) = work.sizes.get_mut(*class as usize) {
                *size = size.wrapping_add(1);
            }
        }
        for class in 0..count {
            work.waiting.push(class as u16)?;
        }
        Ok(work)
    }

    /// A new class of this size, the last, which waits or not.
    fn add(&mut self, size: u16, waits: bool) -> Result<(), AllocError> {
        let class = self.sizes.len().min(u16::MAX as usize) as u16;
        self.sizes.push(size)?;
        self.waits.push(waits)?;
        if waits {
            self.waiting.push(class)?;
        }
        Ok(())
    }

    /// The next class to split by.
    pub fn next(&mut self) -> Option<u16> {
        let class = self.waiting.pop()?;
        if let Some(waits) = self.waits.get_mut(class as usize) {
            *waits = false;
        }
        Some(class)
    }

    /// How many rows the class has.
    pub fn size(&self, class: u16) -> u16 {
        self.sizes.get(class as usize).copied().unwrap_or(0)
    }

    /// So many rows left the class for a new one. Where the class waits, both must wait now, and
    /// otherwise the smaller.
    pub fn note_split(&mut self, class: u16, left: u16) -> Result<(), AllocError> {
        let stayed = self.size(class).wrapping_sub(left);
        if let Some(size) = self.sizes.get_mut(class as usize) {
            *size = stayed;
        }
        let waits = self.waits.get(class as usize).copied().unwrap_or(true);
        if waits || left <= stayed {
            return self.add(left, true);
        }
        if let Some(waits) = self.waits.get_mut(class as usize) {
            *waits = true;
        }
        self.waiting.push(class)?;
        self.add(left, false)
    }
}
