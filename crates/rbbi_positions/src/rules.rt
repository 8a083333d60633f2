//! The marks of the positions of all rules.
ghost use Rattle.std.specs.Prelude.{◌≡◌, ◌+◌, ◌*◌, ◌<◌, ◌≤◌, ◌||◌, ℕ, List, false, IfOk, OnOk};
ghost use Rattle.std.specs.Prelude.{◌++◌, replicate, length, sum_by};
ghost use Rattle.rbbi_model.specs.Ranges.{Range};
ghost use Rattle.rbbi_model.specs.Rules.{leaves_of, AreLawful};
ghost use Rattle.rbbi_resolve.specs.RuleLists.{rule_of, rules_of};
ghost use Rattle.rbbi_positions.specs.inner.Rows.{in_row};
ghost use Rattle.rbbi_bits.specs.BitRows.{row_bit};
ghost use Rattle.rbbi_positions.specs.inner.RuleTests.{some_rule, rule_goes, AreOwners};
ghost use Rattle.rbbi_positions.specs.inner.PositionKinds.{is_of_kind};

use crate::count::count;
use crate::firsts::add_firsts;
use crate::followers::add_followers;
use crate::lasts::add_lasts;
use rbbi_resolve::{Rule, Rules};
use std::alloc::{AllocError, Global};

/// The number of leaves of a rule.
fn count_of_rule(rule: &Rule) -> usize
    requires { (sets : List (List Range)) → leaves_of (rule_of sets rule.now) ≤ 8192 }
    ensures { (sets : List (List Range)) → result ≡ leaves_of (rule_of sets rule.now) }
{
    match &rule.rest {
        None => count(&rule.front),
        Some(rest) => count(&rule.front) + count(rest),
    }
}

/// Which positions of a rule a row has.
#[derive(Clone, Copy)]
pub(crate) enum PositionKind {
    /// Those that its lists begin with. A front with a rest isn't empty.
    First,
    /// Those that the lists of its front end with.
    FrontLast,
    /// Those that its lists end with.
    Last,
}

/// Adds to a row the positions of this kind of the rule.
fn add_of_kind(rule: &Rule, kind: PositionKind, first: usize, row: &mut [u64])
    requires short { length row.old ≤ 128 }
    requires within { (sets : List (List Range)) →
        first + leaves_of (rule_of sets rule.now) ≤ 64 * length row.old }
    ensures { (sets : List (List Range)) (position : ℕ) → row_bit row.new position
        ≡ (row_bit row.old position || is_of_kind kind position (rule_of sets rule.now) first) }
{
    match kind {
        PositionKind::First => add_firsts(&rule.front, first, row),
        PositionKind::FrontLast => add_lasts(&rule.front, first, row),
        PositionKind::Last => match &rule.rest {
            None => add_lasts(&rule.front, first, row),
            Some(rest) => add_lasts(rest, first + count(&rule.front), row),
        },
    }
}

/// The row of the positions of this kind of all rules.
pub(crate) fn row_of_kind(
    alloc: Global,
    rules: &Rules,
    kind: PositionKind,
    words: usize,
) -> Result<Vec<u64>, AllocError>
    requires wide { sum_by leaves_of (rules_of rules.now) ≤ 64 * words }
    requires few { words ≤ 128 }
    ensures many { IfOk result (λ row. length row.items ≡ words) }
    ensures bits { IfOk result (λ row. (position : ℕ) → row_bit row.items position
        ≡ some_rule (is_of_kind kind position) (rules_of rules.now) 0) }
{
    let mut row = vec![in alloc; 0u64; words]?;
    let mut start = 0;
    for number in 0..rules.len() {
        let rule = rules.get(number);
        add_of_kind(rule, kind, start, &mut row);
        start += count_of_rule(rule);
    }
    Ok(row)
}

/// Adds to the rows of the rule's positions those that follow them; in the row `none` no bit is
/// set. A rest isn't empty, so what may follow its front are its first positions.
fn add_rule_followers(
    alloc: Global,
    rule: &Rule,
    first: usize,
    none: &[u64],
    followers: &mut [u64],
) -> Result<(), AllocError>
    requires few { length none.now ≤ 128 }
    requires none { (position : ℕ) → row_bit none.now position ≡ false }
    requires within { (sets : List (List Range)) →
        first + leaves_of (rule_of sets rule.now) ≤ 64 * length none.now }
    requires rows { (sets : List (List Range)) →
        (first + leaves_of (rule_of sets rule.now)) * length none.now ≤ length followers.old }
    ensures { OnOk result ((sets : List (List Range)) (position other : ℕ) →
        other < 64 * length none.now →
        in_row (length none.now) followers.new position other
        ≡ (in_row (length none.now) followers.old position other
        || rule_goes position other (rule_of sets rule.now) first)) }
{
    match &rule.rest {
        None => add_followers(alloc, &rule.front, first, none, followers),
        Some(rest) => {
            let second = first + count(&rule.front);
            add_followers(alloc, rest, second, none, followers)?;
            let mut row = none.to_vec(alloc)?;
            add_firsts(rest, second, &mut row);
            add_followers(alloc, &rule.front, first, &row, followers)
        }
    }
}

/// For each position the row of those that follow it in some list of a rule.
pub(crate) fn followers_of(
    alloc: Global,
    rules: &Rules,
    leaves: usize,
    words: usize,
) -> Result<Vec<u64>, AllocError>
    requires all { leaves ≡ sum_by leaves_of (rules_of rules.now) }
    requires wide { leaves ≤ 64 * words }
    requires few { words ≤ 128 }
    ensures many { IfOk result (λ rows. length rows.items ≡ leaves * words) }
    ensures rows { IfOk result (λ rows. (position other : ℕ) → other < 64 * words → in_row words
        rows.items position other ≡ some_rule (rule_goes position other) (rules_of rules.now) 0) }
{
    let none = vec![in alloc; 0u64; words]?;
    let mut rows = vec![in alloc; 0u64; leaves * words]?;
    let mut start = 0;
    for number in 0..rules.len() {
        let rule = rules.get(number);
        add_rule_followers(alloc, rule, start, &none, &mut rows)?;
        start += count_of_rule(rule);
    }
    Ok(rows)
}

/// Adds so many times the number of a rule.
fn add_owners(owners: &mut Vec<u32>, number: u32, count: usize) -> Result<(), AllocError>
    ensures { OnOk result (owners.new.items ≡ owners.old.items ++ replicate count number) }
{
    for _ in 0..count {
        owners.push(number)?;
    }
    Ok(())
}

/// The rule of each position.
pub(crate) fn owners_of(alloc: Global, rules: &Rules) -> Result<Vec<u32>, AllocError>
    requires { AreLawful (rules_of rules.now) }
    ensures many { IfOk result (λ owners.
        length owners.items ≡ sum_by leaves_of (rules_of rules.now)) }
    ensures each { IfOk result (λ owners. AreOwners (rules_of rules.now) owners.items) }
{
    let mut owners = Vec::new(alloc);
    for number in 0..rules.len() {
        let count = count_of_rule(rules.get(number));
        add_owners(&mut owners, number as u32, count)?;
    }
    Ok(owners)
}
