//! A session of whole rescans: each question is answered on all boundaries of the text, found again
//! from its start.

use crate::costs::cost;
use crate::questions::{Answer, Boundary, Question, answer_on};
use crate::searches::searches;
use rbbi_table::Table;
use rbbi_text::{Chars, PlainText, Steps};
use std::alloc::Global;
use std::process::Abort;
use std::sync::ledger::Ledger;

/// A text, its table and a cursor.
#[derive(Drop)]
pub(crate) struct Rescans<'a> {
    pub(crate) table: &'a Table,
    pub(crate) letters: Vec<char>,
    pub(crate) cursor: u32,
}

/// What a question must give.
#[derive(Clone, Copy)]
pub(crate) struct Wanted {
    pub(crate) answer: Answer,
    /// The number of the status list of the boundary at the cursor then.
    pub(crate) status: u16,
    /// The most characters that the question may read.
    pub(crate) cost: u64,
}

/// All boundaries of a text.
fn boundaries<L: Ledger>(
    rt: &impl Abort,
    alloc: Global,
    table: &Table,
    text: &PlainText,
    steps: &mut Steps<L>,
) -> Vec<Boundary> {
    let mut all = Vec::new(alloc);
    all.push(Boundary { at: 0, status: 0 })
        .expect(rt, "a boundary");
    let found = searches(rt, alloc, table, text, 0, steps);
    for search in found.as_slice() {
        let boundary = Boundary {
            at: search.at,
            status: search.status,
        };
        all.push(boundary).expect(rt, "a boundary");
    }
    all
}

/// The status list of the boundary at a place.
pub(crate) fn status_at(boundaries: &[Boundary], place: u32) -> u16 {
    let found = boundaries.iter().find(|boundary| boundary.at == place);
    found.map_or(u16::MAX, |boundary| boundary.status)
}

/// The string of letters, each as the second of the pair whose first it is.
pub(crate) fn mapped(
    rt: &impl Abort,
    alloc: Global,
    letters: &[char],
    pairs: &[(char, char)],
) -> String {
    let mut text = String::new(alloc);
    for letter in letters {
        let found = pairs.iter().find(|pair| pair.0 == *letter);
        let other = found.map_or(*letter, |pair| pair.1);
        text.push(other).expect(rt, "a letter");
    }
    text
}

impl<'a> Rescans<'a> {
    pub(crate) fn open(
        rt: &impl Abort,
        alloc: Global,
        table: &'a Table,
        text: &str,
    ) -> Rescans<'a> {
        Rescans {
            table,
            letters: text.chars().collect(alloc).expect(rt, "letters"),
            cursor: 0,
        }
    }

    /// The text as it is, with each letter as the second of the pair whose first it is.
    fn text(&self, rt: &impl Abort, alloc: Global, pairs: &[(char, char)]) -> PlainText {
        let letters = mapped(rt, alloc, &self.letters, pairs);
        PlainText::new(alloc, letters.as_str()).expect(rt, "a text")
    }

    /// What a question must give. It moves the cursor.
    pub(crate) fn ask<L: Ledger>(
        &mut self,
        rt: &impl Abort,
        alloc: Global,
        question: Question,
        steps: &mut Steps<L>,
    ) -> Wanted {
        let text = self.text(rt, alloc, &[]);
        let boundaries = boundaries(rt, alloc, self.table, &text, steps);
        let cost = cost(rt, alloc, self.table, &text, self.cursor, question, steps);
        let answer = answer_on(&boundaries, text.len(), self.cursor, question);
        self.cursor = answer.cursor;
        Wanted {
            answer,
            status: status_at(&boundaries, answer.cursor),
            cost,
        }
    }

    /// All boundaries of the text as it is, with each letter as the second of the pair whose first
    /// it is.
    pub(crate) fn boundaries<L: Ledger>(
        &self,
        rt: &impl Abort,
        alloc: Global,
        pairs: &[(char, char)],
        steps: &mut Steps<L>,
    ) -> Vec<Boundary> {
        let text = self.text(rt, alloc, pairs);
        boundaries(rt, alloc, self.table, &text, steps)
    }

    /// The number of characters.
    pub(crate) fn len(&self) -> u32 {
        (self.letters.len() % 4_294_967_296) as u32
    }

    /// Puts a string in place of so many characters from a place on. Tells whether they are there;
    /// where they aren't, all stays.
    pub(crate) fn replace(
        &mut self,
        rt: &impl Abort,
        alloc: Global,
        at: u32,
        remove: u32,
        insert: &str,
    ) -> bool {
        let (at, end) = (at as usize, at as usize + remove as usize);
        if end > self.letters.len() {
            return false;
        }
        let mut letters = self.letters[..at].to_vec(alloc).expect(rt, "letters");
        for letter in insert.chars() {
            letters.push(letter).expect(rt, "a letter");
        }
        letters
            .extend_from_slice(&self.letters[end..])
            .expect(rt, "letters");
        self.letters = letters;
        self.cursor = 0;
        true
    }
}
