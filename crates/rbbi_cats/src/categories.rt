//! The categories of code points.
ghost use Rattle.std.specs.Prelude.{◌≡◌, IfOk};
ghost use Rattle.rbbi_model.specs.Rules.{AreLawful};
ghost use Rattle.rbbi_model.specs.Tables.{category_of};
ghost use Rattle.rbbi_model.specs.ValidTables.{AreValidRanges};
ghost use Rattle.rbbi_model.specs.Compiled.{AreClasses};
ghost use Rattle.rbbi_resolve.specs.RuleLists.{rules_of};
ghost use Rattle.rbbi_cats.specs.CategoryLists.{HasClasses};
ghost use Rattle.rbbi_cats.specs.declared.error.CatsErr.TheVariants.{TooManyCategories};

use crate::classes::{MOST_CATEGORIES, categories_of};
use crate::ranges::ranges_of;
use crate::{CatRange, CatsErr};
use rbbi_resolve::Rules;
use rbbi_table::Blocks;
use std::alloc::Global;
use std::marker::Model;

/// The categories of code points. Contracts see their number, and their ranges.
#[derive(Drop)]
pub struct Categories {
    count: u16,
    ranges: Vec<CatRange>,
    /// The same categories in blocks, for the look-up of a character.
    blocks: Blocks,
}

impl Model for Categories {
    ghost use Rattle.rbbi_cats.specs.CategoryLists.{CategoryList};
    ghost use Rattle.rbbi_table.specs.Blocks.{AreBlocks};
    ghost use Rattle.rbbi_model.specs.ValidTables.{AreValidRanges};

    ghost Value = { CategoryList };

    ghost view = { λ cats. record { count = cats.count; ranges = cats.ranges.items } };

    ghost invariant = { λ cats. AreValidRanges cats.count cats.ranges.items
        × AreBlocks cats.ranges.items cats.blocks.numbers.items cats.blocks.categories.items };
}

/// The categories of the rules: 0 for the code points that no leaf reads, and one for each class of
/// code points that the leaves' sets don't distinguish, numbered by their least code point
/// (partition refinement; Paige and Tarjan 1987).
///
/// Refuses `TooManyCategories` if there are more than 1,000, category 0 counted.
pub fn partition(alloc: Global, rules: &Rules) -> Result<Categories, CatsErr>
    requires { AreLawful (rules_of rules.now) }
    ensures classes { IfOk result (λ cats. AreClasses (rules_of rules.now) cats.count cats.ranges) }
    ensures form { IfOk result (λ cats. AreValidRanges cats.count cats.ranges) }
    ensures few { IfOk result (λ cats. ¬ HasClasses (rules_of rules.now) MOST_CATEGORIES) }
    ensures too_many { result ≡ Err TooManyCategories →
        HasClasses (rules_of rules.now) MOST_CATEGORIES }
{
    let (division, rows) = rules.sets().by_classes();
    let (categories, count) = categories_of(alloc, division, rows)?;
    let ranges = ranges_of(alloc, division.steps(), &categories)?;
    let blocks = Blocks::new(alloc, &ranges)?;
    Ok(Categories {
        count: count as u16,
        ranges,
        blocks,
    })
}

impl Categories {
    /// The category of a character, looked up in two steps.
    pub fn of(&self, c: char) -> u16
        ensures { result ≡ category_of self.now.ranges c }
    {
        self.blocks.category(c)
    }

    /// The number of categories, category 0 counted: 1 to 1,000.
    pub fn count(&self) -> u16
        ensures value { result ≡ self.now.count }
        ensures form { AreValidRanges self.now.count self.now.ranges }
    {
        self.count
    }

    /// The ranges of the categories: the first starts at 0, starts rise, and neighbours have
    /// different categories, each below the number of categories.
    pub fn ranges(&self) -> &[CatRange]
        ensures value { result.now ≡ self.now.ranges }
        ensures form { AreValidRanges self.now.count result.now }
    {
        &self.ranges
    }
}
