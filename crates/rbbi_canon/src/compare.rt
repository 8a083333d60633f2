//! A text after which two tables have different marks.
ghost use Rattle.std.specs.Prelude.{◌≡◌, ◌+◌, ◌<◌, length, IfOk, MatchOption};
ghost use Rattle.rbbi_model.specs.Canonical.{AreMarkedAlike};
ghost use Rattle.rbbi_canon.specs.Differences.{TellsApart};
ghost use Rattle.rbbi_canon.specs.inner.Letters.{AreLetters};
ghost use Rattle.rbbi_canon.specs.inner.Pairs.{AreSearched};

use crate::letters::{Letter, letters_of};
use crate::pairs::{Pair, have_same_marks, word_to};
use crate::union_find::UnionFind;
use rbbi_table::Table;
use rbbi_text::Word;
use std::alloc::{AllocError, Global};

/// A nonempty text after which the two tables have different marks, or None exactly if there is
/// none. Marks are the accept number, the front mask and the status numbers of the row that the
/// text leads to.
///
/// It goes over pairs of rows to which a text leads, breadth first, and joins the rows of a pair by
/// union-find (Hopcroft and Karp 1971). So it looks at fewer pairs than both tables have rows, and
/// at fewer letters from each than both have categories; no clause counts them.
pub fn differ(alloc: Global, these: &Table, those: &Table) -> Result<Option<Word>, AllocError>
    ensures { IfOk result (λ found.
        MatchOption found (AreMarkedAlike these.now those.now) (TellsApart these.now those.now)) }
{
    these.valid();
    those.valid();
    let letters = letters_of(alloc, these, those)?;
    let rows = these.rows() as usize;
    let mut sets = UnionFind::new(alloc, rows + those.rows() as usize)?;
    let first = Pair {
        this: 1,
        that: 1,
        from: 0,
        letter: 0,
    };
    let mut pairs = vec![in alloc; first]?;
    sets.join(1, rows + 1);
    let mut next = 0;
    'pairs: while next < pairs.len() {
        let found = follow(alloc, these, those, &letters, next, &mut sets, &mut pairs)?;
        if found.is_some() {
            return Ok(found);
        }
        next += 1;
    }
    Ok(None)
}

/// Adds the pairs of rows, not joined yet, to which the letters lead from a pair. Gives a text that
/// distinguishes the tables if one of them does.
fn follow(
    alloc: Global,
    these: &Table,
    those: &Table,
    letters: &[Letter],
    next: usize,
    sets: &mut UnionFind,
    pairs: &mut Vec<Pair>,
) -> Result<Option<Word>, AllocError>
    requires letters { AreLetters these.now those.now letters.now }
    requires searched { AreSearched these.now those.now letters.now sets.old pairs.old.items next }
    requires next { next < length pairs.old.items }
    ensures { IfOk result (λ found. MatchOption found
        (AreSearched these.now those.now letters.now sets.new pairs.new.items (next + 1))
        (TellsApart these.now those.now)) }
{
    these.valid();
    those.valid();
    let rows = these.rows() as usize;
    let pair = pairs[next];
    for (number, letter) in letters.iter().enumerate() {
        let this = these.step(pair.this, letter.this);
        let that = those.step(pair.that, letter.that);
        let other = rows + that as usize;
        if sets.are_joined(this as usize, other) {
            continue;
        }
        pairs.push(Pair {
            this,
            that,
            from: next,
            letter: number,
        })?;
        if !have_same_marks(these, this, those, that) {
            let last = pairs.len() - 1;
            return Ok(Some(word_to(alloc, these, those, letters, pairs, last)?));
        }
        sets.join(this as usize, other);
    }
    Ok(None)
}
