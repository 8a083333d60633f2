//! Sets of classes as rows of bits.
ghost use Rattle.std.specs.Prelude.{◌≡◌, ◌+◌, ◌^◌, ◌<◌, ◌≤◌, ◌↔◌, ◌⊎◌, ℕ, List, [], ◌∷◌, length};
ghost use Rattle.std.specs.Prelude.{IfOk, slice_index};
ghost use Rattle.std.specs.List.{flat_map};
ghost use Rattle.std.specs.Rc.{rc_slice_items};
ghost use Rattle.rbbi_classes.specs.Classes.{HasMember, HasClass, class_bit, word_at};

use crate::Layout;
use crate::chunks::{rest_of, rest_of_chunk, words_in, zeros};
use crate::layout::ClassSpan;
use crate::operation::Operation;
use crate::word_row::WordRow;
use std::alloc::{AllocError, Global};
use std::marker::Model;
use std::rc::RcSlice;
use std::slice;

/// A set of classes as a row of bits, one bit for each class of a `Layout`. An operation on two
/// sets takes a step for 64 classes. Contracts see the set as its words (`ClassBits`), and by
/// `HasMember` whether it has the class that begins at a code point.
///
/// The words are the set's own, or stand in chunks that it shares with other sets: a set that a
/// `ClassShelf` keeps has chunks, or its one word without further memory, and one that an operation
/// makes has words of its own. The other operand is read piece by piece, in whichever form it is.
#[derive(Drop)]
pub struct ClassSet {
    /// How many words, all 0, stand before those that are kept.
    from: usize,
    /// The classes as bits, 64 to a word, the least bit first.
    words: Words,
}

/// How the words of a set are kept.
#[derive(Drop)]
enum Words {
    /// A row of the set's own.
    Own(Vec<u64>),
    /// Chunks, one after another, each of which many sets may share.
    Shared(RcSlice<RcSlice<u64>>),
    /// The one word.
    One(u64),
}

impl Model for ClassSet {
    ghost use Rattle.std.specs.Prelude.{◌≤◌, ◌+◌, ◌^◌, length};
    ghost use Rattle.rbbi_classes.specs.Classes.{ClassBits};
    ghost use Rattle.rbbi_classes.specs.ClassWords.{words_kept};

    ghost Value = { ClassBits };

    ghost view = { λ set. record { from = set.from; words = words_kept set.words } };

    ghost invariant = { λ set. set.from + length (words_kept set.words) ≤ 2 ^ 58 };
}

impl ClassSet {
    ghost use Rattle.rbbi_classes.specs.inner.WordRows.{bits};

    /// The empty set.
    pub fn empty(alloc: Global) -> ClassSet
        ensures { (bounds : List ℕ) (c : ℕ) → ¬ HasMember bounds result c }
    {
        let words = Words::Own(Vec::new(alloc));
        ClassSet { from: 0, words }
    }

    /// The set of some classes.
    pub(crate) fn of_span(alloc: Global, span: ClassSpan) -> Result<ClassSet, AllocError>
        requires { span.first ≤ span.last }
        ensures { IfOk result (λ set. (k : ℕ) →
            HasClass set k ↔ ((span.first ≤ k) × (k ≤ span.last))) }
    {
        let from = span.first / 64;
        let last = span.last / 64 - from;
        let mut words = vec![in alloc; u64::MAX; last + 1]?;
        words[0] &= u64::MAX << (span.first % 64);
        words[last] &= u64::MAX >> (63 - span.last % 64);
        Ok(ClassSet::of_row(WordRow { from, words }))
    }

    /// The set with these words.
    pub(crate) fn of_row(row: WordRow) -> ClassSet
        requires { row.from + length row.words.items ≤ 2 ^ 58 }
        ensures { result ≡ bits row }
    {
        let words = Words::Own(row.words);
        ClassSet {
            from: row.from,
            words,
        }
    }

    /// The set with the words of one chunk after another, of which the first has this number.
    pub(crate) fn of_chunks(from: usize, chunks: Vec<RcSlice<u64>>) -> Result<ClassSet, AllocError>
        requires { from + length (flat_map rc_slice_items chunks.items) ≤ 2 ^ 58 }
        ensures { IfOk result (λ set.
            set ≡ record { from = from; words = flat_map rc_slice_items chunks.items }) }
    {
        let words = Words::Shared(RcSlice::from_vec(chunks)?);
        Ok(ClassSet { from, words })
    }

    /// The set with one word that has this number.
    pub(crate) fn of_word(from: usize, word: u64) -> ClassSet
        requires { from < 2 ^ 58 }
        ensures { result ≡ record { from = from; words = word ∷ [] } }
    {
        let words = Words::One(word);
        ClassSet { from, words }
    }

    /// How many words, all 0, are left out in front.
    pub(crate) fn from(&self) -> usize
        ensures { result ≡ self.now.from }
    {
        self.from
    }

    /// The number of a word from which on all are 0.
    pub(crate) fn end_word(&self) -> usize
        ensures value { result ≡ self.now.from + length self.now.words }
        ensures few { result ≤ 2 ^ 58 }
    {
        let count = match &self.words {
            Words::Own(words) => words.len(),
            Words::Shared(chunks) => words_in(chunks.as_slice()),
            Words::One(_) => 1,
        };
        self.from + count
    }

    /// Some words from that with this number on, counted with those that are left out: as many as
    /// stand in one piece.
    pub(crate) fn piece_at(&self, i: usize) -> &[u64]
        ensures some { 0 < length result.now }
        ensures words { (k : ℕ) → k < length result.now
            → slice_index result.now k ≡ word_at self.now (i + k) }
    {
        if i < self.from {
            return zeros(self.from - i);
        }
        let place = i - self.from;
        match &self.words {
            Words::Own(words) => rest_of(words.as_slice(), place),
            Words::Shared(chunks) => rest_of_chunk(chunks.as_slice(), place),
            Words::One(word) => rest_of(slice::from_ref(word), place),
        }
    }

    /// The word with this number, counted with those that are left out.
    pub fn word(&self, i: usize) -> u64
        ensures { result ≡ word_at self.now i }
    {
        self.piece_at(i)[0]
    }

    /// The union. It reuses the longer row.
    pub fn union(self, alloc: Global, other: ClassSet) -> Result<ClassSet, AllocError>
        ensures { IfOk result (λ set. (bounds : List ℕ) (c : ℕ) → HasMember bounds set c
            ↔ (HasMember bounds self c ⊎ HasMember bounds other c)) }
    {
        if self.end_word() - self.from < other.end_word() - other.from {
            other.join(alloc, &self)
        } else {
            self.join(alloc, &other)
        }
    }

    /// The union with a set. It reuses this row.
    fn join(self, alloc: Global, other: &ClassSet) -> Result<ClassSet, AllocError>
        ensures { IfOk result (λ set. (bounds : List ℕ) (c : ℕ) → HasMember bounds set c
            ↔ (HasMember bounds self c ⊎ HasMember bounds other.now c)) }
    {
        let first = other.from;
        let last = other.end_word();
        if first == last {
            return Ok(self);
        }
        let mut row = self.into_row(alloc, first, last)?;
        row.combine(Operation::Union, other, first, last);
        Ok(ClassSet::of_row(row))
    }

    /// The intersection.
    pub fn meet(self, alloc: Global, other: &ClassSet) -> Result<ClassSet, AllocError>
        ensures { IfOk result (λ set. (bounds : List ℕ) (c : ℕ) → HasMember bounds set c
            ↔ (HasMember bounds self c × HasMember bounds other.now c)) }
    {
        let first = self.from;
        let last = self.end_word();
        let mut row = self.into_row(alloc, first, last)?;
        row.combine(Operation::Intersection, other, first, last);
        Ok(ClassSet::of_row(row))
    }

    /// The difference: what is in this set and not in the other.
    pub fn remove(self, alloc: Global, other: &ClassSet) -> Result<ClassSet, AllocError>
        ensures { IfOk result (λ set. (bounds : List ℕ) (c : ℕ) → HasMember bounds set c
            ↔ (HasMember bounds self c × ¬ HasMember bounds other.now c)) }
    {
        let first = self.from;
        let last = self.end_word();
        let mut row = self.into_row(alloc, first, last)?;
        row.combine(
            Operation::Difference,
            other,
            first.max(other.from),
            last.min(other.end_word()),
        );
        Ok(ClassSet::of_row(row))
    }

    /// The complement under a layout.
    pub fn negate(&self, alloc: Global, layout: &Layout) -> Result<ClassSet, AllocError>
        ensures { IfOk result (λ set. (c : ℕ) → HasMember layout.now set c
            ↔ ((c ≤ 0x10FFFF) × ¬ HasMember layout.now self.now c)) }
    {
        let all = ClassSpan {
            first: 0,
            last: layout.last_class(),
        };
        ClassSet::of_span(alloc, all)?.remove(alloc, self)
    }

    /// The words in the set's own row, which also has those from `first` to before `last`.
    fn into_row(self, alloc: Global, first: usize, last: usize) -> Result<WordRow, AllocError>
        requires ordered { first ≤ last }
        requires few { last ≤ 2 ^ 58 }
        ensures bits { IfOk result (λ row. (k : ℕ) → class_bit (bits row) k ≡ class_bit self k) }
        ensures from { IfOk result (λ row. row.from ≤ first) }
        ensures end { IfOk result (λ row. last ≤ row.from + length row.words.items) }
        ensures few { IfOk result (λ row. row.from + length row.words.items ≤ 2 ^ 58) }
    {
        let from = self.from;
        let end = self.end_word();
        let row = self.into_own_row(alloc)?;
        if from <= first && last <= end {
            return Ok(row);
        }
        ClassSet::of_row(row).copy(alloc, first.min(from), last.max(end))
    }

    /// The words in the set's own row. Those of another form are copied.
    fn into_own_row(self, alloc: Global) -> Result<WordRow, AllocError>
        ensures { IfOk result (λ row. bits row ≡ self) }
    {
        let count = self.end_word() - self.from;
        let ClassSet { from, words } = self;
        let chunks = match words {
            Words::Own(words) => return Ok(WordRow { from, words }),
            Words::Shared(chunks) => chunks,
            Words::One(word) => {
                let words = vec![in alloc; word]?;
                return Ok(WordRow { from, words });
            }
        };
        let mut words = Vec::with_capacity(alloc, count)?;
        for chunk in chunks.as_slice() {
            words.extend_from_slice(chunk.as_slice())?;
        }
        Ok(WordRow { from, words })
    }

    /// The words in a new row that has those from the number `first` to before `last`.
    fn copy(&self, alloc: Global, first: usize, last: usize) -> Result<WordRow, AllocError>
        requires from { first ≤ self.now.from }
        requires end { self.now.from + length self.now.words ≤ last }
        ensures bits { IfOk result (λ row. (k : ℕ) →
            class_bit (bits row) k ≡ class_bit self.now k) }
        ensures from { IfOk result (λ row. row.from ≡ first) }
        ensures end { IfOk result (λ row. row.from + length row.words.items ≡ last) }
    {
        let words = vec![in alloc; 0; last - first]?;
        let mut row = WordRow { from: first, words };
        row.combine(Operation::Union, self, self.from, self.end_word());
        Ok(row)
    }
}

impl Clone for ClassSet {
    ghost is_clone = { λ set copy. copy ≡ set };

    /// A copy. One of a set in chunks has the same chunks.
    fn clone(&self) -> Result<ClassSet, AllocError> {
        let words = match &self.words {
            Words::Own(words) => Words::Own(words.clone()?),
            Words::Shared(chunks) => Words::Shared(chunks.clone()?),
            Words::One(word) => Words::One(*word),
        };
        Ok(ClassSet {
            from: self.from,
            words,
        })
    }
}
