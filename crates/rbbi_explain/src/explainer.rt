//! Why segments are what they are.
ghost use Rattle.std.specs.Prelude.{◌<◌, length};
ghost use Rattle.rbbi_model.specs.Rules.{AreLawful};
ghost use Rattle.rbbi_resolve.specs.RuleLists.{rules_of};

use crate::explanation::{Explanation, Origin, Part, Reason};
use crate::machine::Machine;
use crate::search::{Ending, Search, Tagged};
use rbbi_cats::CatsErr;
use rbbi_resolve::Rules;
use rbbi_text::{Chars, Steps};
use std::alloc::{AllocError, Global};
use std::sync::ledger::Ledger;

/// How many characters past a boundary are read, beside as many as the segment has, to see that no
/// rule ends there.
const NEAR: u32 = 64;

/// Says which rules make a segment, by a search over the positions of the rules (Glushkov 1961).
///
/// It keeps of each position that is live only the first chain that comes to it, since what may
/// follow a position doesn't depend on how it was come to. The first of two chains is the one of
/// fewer rules; of as many, that whose last rule is the earlier one of the file; of one rule, that
/// whose last match is the longer one; and so on for the chain before the last match.
#[derive(Drop)]
pub struct Explainer {
    machine: Machine,
    search: Search,
}

impl Explainer {
    /// One for these rules.
    ///
    /// Refuses `TooManyCategories` if they have more than 1,000, category 0 counted; rules that
    /// have a table don't.
    pub fn new(alloc: Global, rules: &Rules) -> Result<Explainer, CatsErr>
        requires { AreLawful (rules_of rules.now) }
    {
        let machine = Machine::new(alloc, rules)?;
        let search = Search::new(alloc, &machine)?;
        Ok(Explainer { machine, search })
    }

    /// Why the segment from `start` on ends, whose end by a table of the rules is `boundary`. Both
    /// are in characters from 0.
    ///
    /// It reads up to the boundary, and as many characters and 64 more past it, to see that no
    /// longer match ends there. It goes on as long as a rule does if the boundary may be the cut of
    /// a look-ahead rule. Fails only if memory runs out.
    pub fn explain<T: Chars, L: Ledger>(
        &mut self,
        alloc: Global,
        text: &T,
        start: u32,
        boundary: u32,
        steps: &mut Steps<L>,
    ) -> Result<Explanation, AllocError>
        requires { start < length (T.characters text.now) }
    {
        let machine = &self.machine;
        let search = &mut self.search;
        let past = boundary.saturating_sub(start).saturating_add(NEAR);
        let near = boundary.saturating_add(past);
        let mut waits = false;
        search.begin(start);
        for at in start..text.len() {
            search.step(machine, text.char_at(at, steps), at)?;
            if let Some(front) = search.cut(machine) {
                let (rule, complete) = (front.last.rule, at + 1);
                return explained(alloc, search, Some(front), Reason::Cut { rule, complete });
            }
            let is_front = search.note_fronts(machine, at + 1);
            waits = waits || is_front && at + 1 == boundary;
            if search.is_over() || at >= near && !waits {
                break;
            }
        }
        let longest = search.longest;
        explained(alloc, search, longest, Reason::LongestMatch)
    }
}

/// The parts of a chain of which one match ends at a place.
fn parts_of(alloc: Global, search: &Search, ending: Ending) -> Result<Vec<Part>, AllocError> {
    let mut parts = Vec::new(alloc);
    let mut next = ending;
    for _ in 0..ending.last.rules {
        let Ending { place, last } = next;
        parts.push(Part {
            rule: last.rule,
            start: last.start,
            end: place,
        })?;
        let place = last.start.saturating_add(1);
        match search.ending_at(place) {
            Some(last) => next = Ending { place, last },
            None => break,
        }
    }
    parts.reverse();
    Ok(parts)
}

/// The rules with a status number that end, each once.
fn origins_of(alloc: Global, tagged: &mut Vec<Tagged>) -> Result<Vec<Origin>, AllocError> {
    tagged.sort_unstable_by_key(|ending| {
        let last = ending.last;
        (u32::MAX - ending.status, last.rule, last.rules, last.start)
    });
    let mut origins: Vec<Origin> = Vec::new(alloc);
    for ending in &*tagged {
        let rule = ending.last.rule;
        if origins.last().is_none_or(|origin| origin.rule != rule) {
            origins.push(Origin {
                status: ending.status,
                rule,
                start: ending.last.start,
            })?;
        }
    }
    Ok(origins)
}

/// The segment up to an ending, for this reason, or of one character if there is none.
fn explained(
    alloc: Global,
    search: &mut Search,
    ending: Option<Ending>,
    reason: Reason,
) -> Result<Explanation, AllocError> {
    let Some(ending) = ending else {
        return Ok(Explanation {
            end: search.start.saturating_add(1),
            reason: Reason::OneCharacter,
            parts: Vec::new(alloc),
            origins: Vec::new(alloc),
        });
    };
    Ok(Explanation {
        end: ending.place,
        reason,
        parts: parts_of(alloc, search, ending)?,
        origins: origins_of(alloc, &mut search.tagged)?,
    })
}
