//! The positions by which the last character can be read, each with the first chain that comes to
//! it.

use crate::chain::Last;
use std::alloc::{AllocError, Global};

/// A position, and the last match of the chain that comes to it.
#[derive(Clone, Copy)]
pub(crate) struct Reading {
    pub(crate) leaf: usize,
    pub(crate) last: Last,
}

/// A set of positions.
#[derive(Drop)]
pub(crate) struct Live {
    pub(crate) items: Vec<Reading>,
    /// Of each position its place among the items, from 1, or 0 if it isn't one of them.
    places: Vec<usize>,
}

impl Live {
    /// No positions of so many.
    pub(crate) fn new(alloc: Global, leaves: usize) -> Result<Live, AllocError> {
        Ok(Live {
            items: Vec::new(alloc),
            places: vec![in alloc; 0; leaves]?,
        })
    }

    /// Takes all positions out.
    pub(crate) fn clear(&mut self) {
        for reading in &self.items {
            if let Some(place) = self.places.get_mut(reading.leaf) {
                *place = 0;
            }
        }
        self.items.clear();
    }

    /// Adds a position. If it is there already, the first of the two chains stays.
    pub(crate) fn offer(&mut self, reading: Reading) -> Result<(), AllocError> {
        let Some(place) = self.places.get_mut(reading.leaf) else {
            return Ok(());
        };
        let Some(found) = place.checked_sub(1) else {
            self.items.push(reading)?;
            *place = self.items.len();
            return Ok(());
        };
        if let Some(known) = self.items.get_mut(found)
            && reading.last < known.last
        {
            *known = reading;
        }
        Ok(())
    }
}
