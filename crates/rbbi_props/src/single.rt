//! Single names, which the Unicode Character Database has.
ghost use Rattle.std.specs.Prelude.{◌≡◌, ◌≤◌, ◌↔◌, ℕ, IfOk, IsTrue, map};
ghost use Rattle.std.specs.Str.{chars};
ghost use Rattle.unicode.specs.Loose.{normalize as unicode_normalize};
ghost use Rattle.unicode.specs.Sets.{in_set};
ghost use Rattle.rbbi_model.specs.Ranges.{Has};
ghost use Rattle.rbbi_sets.specs.Rising.{AreRising};
ghost use Rattle.rbbi_props.specs.Lookups as spec;
ghost use Rattle.rbbi_props.specs.Lookups.{IsSetOf};

use crate::loose::is_well_formed;
use crate::runs::set_of_runs;
use rbbi_sets::{CodeRange, CodeSet};
use std::alloc::{AllocError, Global};
use unicode::properties::{GeneralCategory, Script};
use unicode::sets::{Set, by_name, normalize};

/// The set that a name stands for on its own: a binary property, a general category or a script.
/// None where the name isn't well formed or nothing has it.
pub(crate) fn single(alloc: Global, name: &str) -> Result<Option<CodeSet>, AllocError>
    ensures { IfOk result (λ found. IsSetOf found (spec.single name.now)) }
{
    if !is_well_formed(name.as_bytes()) {
        return Ok(None);
    }
    let normal = normal_form(alloc, name)?;
    let Ok(set) = by_name(&normal) else {
        return Ok(None);
    };
    let found = set_of(alloc, set)?;
    Ok(Some(found))
}

/// The form in which the Unicode Character Database's names are compared.
fn normal_form(alloc: Global, name: &str) -> Result<Vec<u8>, AllocError>
    ensures { IfOk result (λ form. form.items ≡ unicode_normalize (chars name.now)) }
{
    let characters = characters(alloc, name)?;
    normalize(alloc, &characters)
}

fn characters(alloc: Global, text: &str) -> Result<Vec<char>, AllocError>
    ensures { IfOk result (λ characters. characters.items ≡ chars text.now) }
{
    text.chars().collect(alloc)
}

/// The members of a set of the Unicode Character Database.
///
/// The sets that a single name mostly stands for are read in one pass from the runs that the
/// database's tables have. Of the few others all ranges are listed first.
fn set_of(alloc: Global, set: Set) -> Result<CodeSet, AllocError>
    ensures form { IfOk result (λ found. AreRising found) }
    ensures members { IfOk result (λ found. (c : ℕ) → c ≤ 0x10FFFF →
        Has found c ↔ IsTrue (in_set set c)) }
{
    match set {
        Set::Binary(property) => set_of_runs(alloc, property.runs(), 1, 1),
        Set::Category(category) => {
            let number = category.number();
            set_of_runs(alloc, GeneralCategory::runs(), number, number)
        }
        Set::CategoryGroup(group) => {
            let (first, last) = group.bounds();
            set_of_runs(alloc, GeneralCategory::runs(), first, last)
        }
        Set::Script(script) => {
            let number = script.number();
            set_of_runs(alloc, Script::runs(), number, number)
        }
        _ => set_of_ranges(alloc, set),
    }
}

/// The members of a set, by a list of its ranges.
fn set_of_ranges(alloc: Global, set: Set) -> Result<CodeSet, AllocError>
    ensures form { IfOk result (λ found. AreRising found) }
    ensures members { IfOk result (λ found. (c : ℕ) → c ≤ 0x10FFFF →
        Has found c ↔ IsTrue (in_set set c)) }
{
    let pairs = set.ranges(alloc)?;
    let ranges = code_ranges(alloc, &pairs)?;
    CodeSet::from_ranges(alloc, ranges)
}

fn code_ranges(alloc: Global, pairs: &[(u32, u32)]) -> Result<Vec<CodeRange>, AllocError>
    ensures { IfOk result (λ ranges.
        ranges.items ≡ map (λ pair. record { low = pair.0; high = pair.1 }) pairs.now) }
{
    pairs
        .iter()
        .map(|pair| CodeRange {
            low: pair.0,
            high: pair.1,
        })
        .collect(alloc)
}
