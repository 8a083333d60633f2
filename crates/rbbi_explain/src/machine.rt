//! The rules as the search asks them: their positions and categories.
ghost use Rattle.std.specs.Prelude.{◌≡◌};
ghost use Rattle.rbbi_model.specs.Rules.{AreLawful};
ghost use Rattle.rbbi_resolve.specs.RuleLists.{rules_of};

use rbbi_bits::{Span, insert, span_of};
use rbbi_cats::{Categories, CatsErr, partition};
use rbbi_positions::{Positions, positions};
use rbbi_resolve::Rules;
use std::alloc::{AllocError, Global};

/// What is known of a position.
#[derive(Clone, Copy)]
pub(crate) struct Leaf {
    pub(crate) rule: u32,
    /// The status number of its rule.
    pub(crate) status: Option<u32>,
    /// The number of its rule among the look-ahead rules.
    pub(crate) slash: Option<u32>,
    pub(crate) is_last: bool,
    pub(crate) is_front_last: bool,
    /// The words of the row of its followers.
    pub(crate) span: Span,
}

/// The positions of rules, and the categories that they read.
#[derive(Drop)]
pub(crate) struct Machine {
    pub(crate) positions: Positions,
    categories: Categories,
    pub(crate) leaves: Vec<Leaf>,
    /// The row of the first positions of the rules that may be chained into.
    pub(crate) chained: Vec<u64>,
    /// The span of all words of a row.
    pub(crate) whole: Span,
    /// The number of look-ahead rules.
    pub(crate) slashes: u32,
    ghost alike: { positions.categories ≡ categories.count },
}

/// What is known of the positions, from the first to the last.
fn leaves_of(alloc: Global, positions: &Positions) -> Result<Vec<Leaf>, AllocError> {
    let mut leaves = Vec::new(alloc);
    for leaf in 0..positions.leaves() {
        let rule = positions.rule(leaf);
        // Each position is of one of the rules.
        if rule < positions.rules() {
            leaves.push(Leaf {
                rule,
                status: positions.tag(rule),
                slash: positions.slash(rule),
                is_last: positions.is_last(leaf),
                is_front_last: positions.is_front_last(leaf),
                span: span_of(positions.followers(leaf)),
            })?;
        }
    }
    Ok(leaves)
}

/// The row of the first positions of the rules that may be chained into.
fn chained_row(alloc: Global, positions: &Positions) -> Result<Vec<u64>, AllocError> {
    let mut row: Vec<u64> = vec![in alloc; 0; positions.words()]?;
    let words = row.as_mut_slice();
    for leaf in 0..positions.leaves() {
        let rule = positions.rule(leaf);
        if positions.is_first(leaf) && rule < positions.rules() && positions.chained_into(rule) {
            insert(words, leaf as usize);
        }
    }
    Ok(row)
}

impl Machine {
    /// The machine of these rules.
    ///
    /// Refuses `TooManyCategories` if there are more than 1,000, category 0 counted.
    pub(crate) fn new(alloc: Global, rules: &Rules) -> Result<Machine, CatsErr>
        requires { AreLawful (rules_of rules.now) }
    {
        let categories = partition(alloc, rules)?;
        let positions = positions(alloc, rules, &categories)?;
        let leaves = leaves_of(alloc, &positions)?;
        let chained = chained_row(alloc, &positions)?;
        let (from, to) = (0, chained.len());
        Ok(Machine {
            positions,
            categories,
            leaves,
            chained,
            whole: Span { from, to },
            slashes: rules.slashes(),
        })
    }

    /// What is known of a position, if there is one of this number.
    pub(crate) fn leaf(&self, leaf: usize) -> Option<Leaf> {
        self.leaves.get(leaf).copied()
    }

    /// The row of the positions that read a character.
    pub(crate) fn readers(&self, c: char) -> &[u64] {
        let category = self.categories.of(c);
        if category < self.categories.count() {
            self.positions.readers(category)
        } else {
            &[]
        }
    }

    /// The row of the positions that follow one.
    pub(crate) fn followers(&self, leaf: usize) -> &[u64] {
        if leaf < self.positions.leaves() as usize {
            self.positions.followers(leaf as u32)
        } else {
            &[]
        }
    }
}
