//! The inverse of the transitions: the rows that lead to a row by a category.
ghost use Rattle.rbbi_dfa.specs.inner.Automata.{IsDetermined};

use crate::automaton::Automaton;
use std::alloc::{AllocError, Global};

/// The rows that lead to a row, for each category, sorted by counting. It says where to look for
/// classes to split, and no more: nothing is proved of it, and a split looks at the cells
/// themselves.
#[derive(Drop)]
pub(crate) struct Inverse {
    width: usize,
    /// For each row and category, where its sources end. They begin where those before end.
    ends: Vec<u32>,
    /// The rows that lead there, one after another.
    sources: Vec<u16>,
}

impl Inverse {
    /// Inverts the transitions of an automaton.
    pub fn new(alloc: Global, automaton: &Automaton) -> Result<Inverse, AllocError>
        requires { IsDetermined automaton.now }
    {
        let width = automaton.categories as usize;
        let places = automaton.rows() as usize * width;
        let mut ends = vec![in alloc; 0u32; places]?;
        let mut sources = vec![in alloc; 0u16; places]?;
        for row in 0..automaton.rows() {
            for category in 0..automaton.categories {
                let place = automaton.next(row, category) as usize * width + category as usize;
                ends[place] = ends[place].wrapping_add(1);
            }
        }
        let mut before = 0u32;
        for end in ends.iter_mut() {
            let count = *end;
            *end = before;
            before = before.wrapping_add(count);
        }
        for row in 0..automaton.rows() {
            for category in 0..automaton.categories {
                let place = automaton.next(row, category) as usize * width + category as usize;
                let at = ends[place];
                if let Some(source) = sources.get_mut(at as usize) {
                    *source = row;
                }
                ends[place] = at.wrapping_add(1);
            }
        }
        Ok(Inverse {
            width,
            ends,
            sources,
        })
    }

    /// The rows that lead by the category to the row.
    pub fn sources(&self, category: u16, row: u16) -> &[u16] {
        let place = (row as usize)
            .wrapping_mul(self.width)
            .wrapping_add(category as usize);
        let start = if place == 0 {
            0
        } else {
            self.sources_end(place - 1)
        };
        self.sources
            .get(start..self.sources_end(place))
            .unwrap_or(&[])
    }

    /// Where the sources of a place end, and 0 where there is no such place.
    fn sources_end(&self, place: usize) -> usize {
        self.ends.get(place).copied().unwrap_or(0) as usize
    }
}
