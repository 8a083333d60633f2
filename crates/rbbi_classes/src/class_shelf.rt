//! Chunks of rows of bits, each kept once.
ghost use Rattle.std.specs.Prelude.{◌≡◌, ◌↔◌, ◌<◌, ◌≤◌, ◌+◌, ◌^◌, IfOk, IsTrue, length};
ghost use Rattle.std.specs.Rc.{rc_slice_items};

use crate::ClassSet;
use rbbi_bits::mixed;
use std::alloc::{AllocError, Global};
use std::collections::HashMap;
use std::rc::RcSlice;

/// How many words a chunk has, but for the first and the last one of a set.
const CHUNK: usize = 64;

/// The chunks of the sets of classes that were kept, so that equal ones are kept once.
///
/// A set is cut before each word whose number is a multiple of that of a chunk's words, counted
/// with those that the set leaves out in front. So sets that differ in a few words have all other
/// chunks in common, wherever they begin.
#[derive(Drop)]
pub struct ClassShelf {
    /// Each chunk by the hash of its words. Of chunks with one hash the last one is here.
    chunks: HashMap<u64, RcSlice<u64>>,
}

impl ClassShelf {
    /// The shelf with no chunk.
    pub fn new(alloc: Global) -> ClassShelf {
        ClassShelf {
            chunks: HashMap::new(alloc),
        }
    }

    /// The same set in chunks of the shelf. New chunks are added to the shelf. A set of one word
    /// takes none.
    pub fn keep(&mut self, alloc: Global, set: &ClassSet) -> Result<ClassSet, AllocError>
        ensures { IfOk result (λ kept. kept ≡ set.now) }
    {
        let from = set.from();
        let end = set.end_word();
        if end - from == 1 {
            return Ok(ClassSet::of_word(from, set.word(from)));
        }
        let mut chunks = Vec::with_capacity(alloc, (end - from) / CHUNK + 2)?;
        let mut place = from;
        'cuts: while place < end {
            let piece = set.piece_at(place);
            let count = (CHUNK - place % CHUNK).min(end - place).min(piece.len());
            chunks.push(self.chunk(alloc, &piece[..count])?)?;
            place += count;
        }
        ClassSet::of_chunks(from, chunks)
    }

    /// The chunk of these words.
    fn chunk(&mut self, alloc: Global, words: &[u64]) -> Result<RcSlice<u64>, AllocError>
        ensures { IfOk result (λ chunk. rc_slice_items chunk ≡ words.now) }
    {
        let hash = hash_of(words);
        if let Some(chunk) = self.chunks.get(&hash) {
            if chunk.as_slice() == words {
                let copy = chunk.clone()?;
                return Ok(copy);
            }
        }
        let chunk = RcSlice::from_slice(alloc, words)?;
        self.chunks.insert(hash, chunk.clone()?)?;
        Ok(chunk)
    }
}

/// A hash of the words. Those of each four are taken into four numbers, of which none waits for
/// another.
fn hash_of(words: &[u64]) -> u64 {
    let mut first = words.len() as u64;
    let mut second = 1;
    let mut third = 2;
    let mut fourth = 3;
    let count = words.len() / 4;
    for i in 0..count {
        first = mixed(first, words[4 * i]);
        second = mixed(second, words[4 * i + 1]);
        third = mixed(third, words[4 * i + 2]);
        fourth = mixed(fourth, words[4 * i + 3]);
    }
    for i in 4 * count..words.len() {
        first = mixed(first, words[i]);
    }
    mixed(mixed(mixed(first, second), third), fourth)
}
