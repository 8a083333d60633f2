//! One search by sets of positions: from a place on, character by character.

use crate::chain::{Last, first_of};
use crate::live::{Live, Reading};
use crate::machine::Machine;
use rbbi_bits::Span;
use std::alloc::{AllocError, Global};
use std::mem::swap;

/// A place where a rule ends, or its front, with the chain that is chosen there.
#[derive(Clone, Copy)]
pub(crate) struct Ending {
    pub(crate) place: u32,
    pub(crate) last: Last,
}

/// A rule with a status number that ends.
#[derive(Clone, Copy)]
pub(crate) struct Tagged {
    pub(crate) status: u32,
    pub(crate) last: Last,
}

/// What a search knows.
#[derive(Drop)]
pub(crate) struct Search {
    /// Where it began.
    pub(crate) start: u32,
    /// The positions by which the last character can be read.
    live: Live,
    /// Those of the step before.
    before: Live,
    /// For each place after the start the chain that is chosen of those that end there.
    endings: Vec<Option<Last>>,
    /// The last place where a rule ends.
    pub(crate) longest: Option<Ending>,
    /// Of each look-ahead rule the last end of its front.
    fronts: Vec<Option<Ending>>,
    /// The rules with a status number that end at the last place where a rule ends.
    pub(crate) tagged: Vec<Tagged>,
}

/// Adds the positions of a word of a row, whose first bit is position `first`. Each is come to by
/// this chain, with the position's rule as the last one.
fn offer_word(
    machine: &Machine,
    live: &mut Live,
    first: usize,
    word: u64,
    chain: Last,
) -> Result<(), AllocError> {
    let mut left = word;
    for _ in 0..64 {
        if left == 0 {
            break;
        }
        let leaf = first.saturating_add(left.trailing_zeros() as usize);
        if let Some(found) = machine.leaf(leaf) {
            let mut last = chain;
            last.rule = found.rule;
            live.offer(Reading { leaf, last })?;
        }
        left &= left - 1;
    }
    Ok(())
}

/// Adds the positions that two rows have in common, of the words of a span. Each is come to by this
/// chain, with the position's rule as the last one.
fn offer_common(
    machine: &Machine,
    live: &mut Live,
    (these, those): (&[u64], &[u64]),
    span: Span,
    chain: Last,
) -> Result<(), AllocError> {
    for k in span.from..span.to {
        if let Some(this) = these.get(k)
            && let Some(that) = those.get(k)
        {
            offer_word(machine, live, k.saturating_mul(64), *this & *that, chain)?;
        }
    }
    Ok(())
}

/// The end of a front that is kept of one that is known and one at `place`: the later one, or at
/// one place that with the first chain.
fn latest(known: Option<Ending>, place: u32, last: Last) -> Ending {
    let last = match known {
        Some(known) if known.place == place => first_of(Some(known.last), last),
        _ => last,
    };
    Ending { place, last }
}

impl Search {
    /// A search that has not begun.
    pub(crate) fn new(alloc: Global, machine: &Machine) -> Result<Search, AllocError> {
        Ok(Search {
            start: 0,
            live: Live::new(alloc, machine.leaves.len())?,
            before: Live::new(alloc, machine.leaves.len())?,
            endings: Vec::new(alloc),
            longest: None,
            fronts: vec![in alloc; None; machine.slashes as usize]?,
            tagged: Vec::new(alloc),
        })
    }

    /// Begins at a place.
    pub(crate) fn begin(&mut self, start: u32) {
        self.start = start;
        self.live.clear();
        self.endings.clear();
        self.longest = None;
        self.tagged.clear();
        for front in &mut self.fronts {
            *front = None;
        }
    }

    /// Whether no rule can go on.
    pub(crate) fn is_over(&self) -> bool {
        self.live.items.is_empty()
    }

    /// The chain that is chosen of those that end after the last character.
    fn chosen(&self, machine: &Machine) -> Option<Last> {
        let mut chosen = None;
        for reading in &self.live.items {
            if let Some(leaf) = machine.leaf(reading.leaf)
                && leaf.is_last
            {
                chosen = Some(first_of(chosen, reading.last));
            }
        }
        chosen
    }

    /// Notes the rules with a status number that end after the last character.
    fn note_tagged(&mut self, machine: &Machine) -> Result<(), AllocError> {
        self.tagged.clear();
        for reading in &self.live.items {
            if let Some(leaf) = machine.leaf(reading.leaf)
                && let Some(status) = leaf.status
                && leaf.is_last
            {
                let last = reading.last;
                self.tagged.push(Tagged { status, last })?;
            }
        }
        Ok(())
    }

    /// Makes the live positions those that follow the ones before and read a character at `at`.
    fn follow(&mut self, machine: &Machine, readers: &[u64], at: u32) -> Result<(), AllocError> {
        swap(&mut self.live, &mut self.before);
        self.live.clear();
        for reading in &self.before.items {
            if let Some(leaf) = machine.leaf(reading.leaf) {
                let row = machine.followers(reading.leaf);
                offer_common(
                    machine,
                    &mut self.live,
                    (row, readers),
                    leaf.span,
                    reading.last,
                )?;
            }
        }
        if at == self.start {
            let firsts = machine.positions.firsts();
            let (rules, rule, start) = (1, 0, at);
            let chain = Last { rules, rule, start };
            offer_common(
                machine,
                &mut self.live,
                (firsts, readers),
                machine.whole,
                chain,
            )?;
        }
        Ok(())
    }

    /// Reads the character at `at`. If a rule ends after it, rules that may be chained into begin
    /// with it too.
    pub(crate) fn step(&mut self, machine: &Machine, c: char, at: u32) -> Result<(), AllocError> {
        let readers = machine.readers(c);
        self.follow(machine, readers, at)?;
        let chosen = self.chosen(machine);
        self.endings.push(chosen)?;
        let Some(last) = chosen else {
            return Ok(());
        };
        let place = at.saturating_add(1);
        self.longest = Some(Ending { place, last });
        let chained = machine.chained.as_slice();
        let (rules, rule, start) = (last.rules.saturating_add(1), 0, at);
        let chain = Last { rules, rule, start };
        offer_common(
            machine,
            &mut self.live,
            (chained, readers),
            machine.whole,
            chain,
        )?;
        self.note_tagged(machine)
    }

    /// The last end before the last character of the front of the first look-ahead rule of the
    /// file that is complete after that character.
    pub(crate) fn cut(&self, machine: &Machine) -> Option<Ending> {
        let mut first: Option<u32> = None;
        for reading in &self.live.items {
            if let Some(leaf) = machine.leaf(reading.leaf)
                && let Some(slash) = leaf.slash
                && leaf.is_last
                && first.is_none_or(|known| slash < known)
            {
                first = Some(slash);
            }
        }
        self.fronts.get(first? as usize).copied().flatten()
    }

    /// Notes the fronts that end after the last character, at `place`, and answers whether there
    /// is one.
    pub(crate) fn note_fronts(&mut self, machine: &Machine, place: u32) -> bool {
        let mut is_noted = false;
        for reading in &self.live.items {
            if let Some(leaf) = machine.leaf(reading.leaf)
                && let Some(slash) = leaf.slash
                && leaf.is_front_last
                && let Some(front) = self.fronts.get_mut(slash as usize)
            {
                *front = Some(latest(*front, place, reading.last));
                is_noted = true;
            }
        }
        is_noted
    }

    /// The chain that is chosen of those that end at a place after the start.
    pub(crate) fn ending_at(&self, place: u32) -> Option<Last> {
        let after = place.checked_sub(self.start)?.checked_sub(1)?;
        self.endings.get(after as usize).copied().flatten()
    }
}
