//! The positions of rules.
ghost use Rattle.std.specs.Prelude.{IfOk};
ghost use Rattle.rbbi_model.specs.Rules.{AreLawful};
ghost use Rattle.rbbi_model.specs.Compiled.{AreClasses};
ghost use Rattle.rbbi_resolve.specs.RuleLists.{rules_of};
ghost use Rattle.rbbi_positions.specs.PositionMarks.{ArePositions};

use crate::Positions;
use crate::numbers::all_numbers;
use crate::readers::{codes_of, readers_of};
use crate::rule_marks::marks_of;
use crate::rules::{PositionKind, followers_of, owners_of, row_of_kind};
use rbbi_cats::Categories;
use rbbi_resolve::Rules;
use std::alloc::{AllocError, Global};

/// The positions of the rules, whose categories are those of their leaves' sets. `ArePositions`
/// says what the marks mean.
///
/// Fails only if memory runs out.
pub fn positions(alloc: Global, rules: &Rules, cats: &Categories) -> Result<Positions, AllocError>
    requires lawful { AreLawful (rules_of rules.now) }
    requires classes { AreClasses (rules_of rules.now) cats.now.count cats.now.ranges }
    ensures { IfOk result (λ marks. ArePositions
        (rules_of rules.now) cats.now.count cats.now.ranges marks) }
{
    let leaves = rules.leaves() as usize;
    let words = (leaves + 63) / 64;
    let numbers = all_numbers(alloc, rules)?;
    let codes = codes_of(alloc, cats)?;
    let marks = marks_of(alloc, rules)?;
    let owners = owners_of(alloc, rules)?;
    let firsts = row_of_kind(alloc, rules, PositionKind::First, words)?;
    let lasts = row_of_kind(alloc, rules, PositionKind::Last, words)?;
    let front_lasts = row_of_kind(alloc, rules, PositionKind::FrontLast, words)?;
    let followers = followers_of(alloc, rules, leaves, words)?;
    let readers = readers_of(alloc, rules.sets(), &numbers, &codes, words)?;
    Ok(Positions {
        leaves: rules.leaves(),
        categories: cats.count(),
        words,
        rules: marks,
        owners,
        firsts,
        lasts,
        front_lasts,
        followers,
        readers,
    })
}
