//! The categories of the classes of a division.
ghost use Rattle.std.specs.Prelude.{◌≡◌, ◌≤◌, ◌+◌, ◌↔◌, ℕ, IfOk, length, map};
ghost use Rattle.rbbi_model.specs.Ranges.{Has};
ghost use Rattle.rbbi_classes.specs.CharacterSets.{characters_of};
ghost use Rattle.rbbi_classes.specs.Classes.{HasClass, HasMember, IsFirstOfClass};
ghost use Rattle.rbbi_classes.specs.Divisions.{IsDivision};
ghost use Rattle.rbbi_classes.specs.Steps.{number_at};
ghost use Rattle.rbbi_cats.specs.inner.Refinements.{AreNumbered};
ghost use Rattle.rbbi_cats.specs.inner.Categories.{HasTold, AreCategories};
ghost use Rattle.rbbi_cats.specs.declared.error.CatsErr.TheVariants.{TooManyCategories};

use crate::CatsErr;
use crate::refine::refine;
use rbbi_classes::{ClassSet, Division};
use std::alloc::{AllocError, Global};

/// The most categories that rules may have, category 0 counted.
pub const MOST_CATEGORIES: usize = 1000;

/// The category of each class of a division by some rows of its classes, and the number of
/// categories: 0 for the classes that no row has and for those of surrogates, and one for all
/// classes that no row distinguishes, numbered by their first class. It refuses as soon as there
/// are too many, since further rows take none away.
pub(crate) fn categories_of(
    alloc: Global,
    division: &Division,
    rows: &[ClassSet],
) -> Result<(Vec<usize>, usize), CatsErr>
    ensures numbered { IfOk result (λ found. AreNumbered found.0.items found.1) }
    ensures many { IfOk result (λ found. length found.0.items ≡ length division.now.bounds + 1) }
    ensures told { IfOk result (λ found. AreCategories division.now.steps
        (map (characters_of division.now) rows.now) found.0.items) }
    ensures few { IfOk result (λ found. found.1 ≤ MOST_CATEGORIES) }
    ensures too_many { result ≡ Err TooManyCategories →
        HasTold (map (characters_of division.now) rows.now) MOST_CATEGORIES }
{
    let layout = division.layout();
    let surrogates = ClassSet::range(alloc, layout, 0xD800, 0xDFFF)?;
    let mut categories = vec![in alloc; 0usize; layout.last_class() + 1]?;
    let mut count = 1;
    for row in rows {
        let characters = without(alloc, division, row, &surrogates)?;
        count = refine(alloc, &mut categories, count, &characters)?;
        if count > MOST_CATEGORIES {
            return Err(CatsErr::TooManyCategories);
        }
    }
    Ok((categories, count))
}

/// The classes of a row that aren't classes of surrogates.
fn without(
    alloc: Global,
    division: &Division,
    row: &ClassSet,
    surrogates: &ClassSet,
) -> Result<ClassSet, AllocError>
    requires form { IsDivision division.now }
    requires surrogates { (c : ℕ) → IsFirstOfClass division.now.bounds c →
        HasMember division.now.bounds surrogates.now c ↔ ((0xD800 ≤ c) × (c ≤ 0xDFFF)) }
    ensures { IfOk result (λ characters. (c : ℕ) → c ≤ 0x10FFFF → HasClass
        characters (number_at division.now.steps c) ↔ Has (characters_of division.now row.now) c) }
{
    let own = row.clone()?;
    let characters = own.remove(alloc, surrogates)?;
    Ok(characters)
}
