//! The properties that are built in.
ghost use Rattle.std.specs.Prelude.{◌≡◌, map};
ghost use Rattle.ucd_table.specs.Steps.{IsRunsOf};
ghost use Rattle.rbbi_builtin.specs.Properties as spec;
ghost use Rattle.rbbi_builtin.specs.Properties.{names_of, number_of, values_of};

use crate::names::{
    BINARY_VALUES, EAST_ASIAN_WIDTHS, EMOJI_DATA, GENERAL_CATEGORIES, GRAPHEME_CLUSTER_BREAKS,
    INDIC_CONJUNCT_BREAKS, LINE_BREAKS, SCRIPTS, SENTENCE_BREAKS, WORD_BREAKS,
};
use rbbi_props::has_loose_name;
use ucd_breaks::{GraphemeClusterBreak, LineBreak, SentenceBreak, WordBreak};
use ucd_category::GeneralCategory;
use ucd_derived::IndicConjunctBreak;
use ucd_east_asian::EastAsianWidth;
use ucd_emoji::runs::extended_pictographic;
use ucd_script::Script;

/// A property that is built in.
#[derive(Clone, Copy, PartialEq, Eq)]
pub enum Property {
    GeneralCategory,
    Script,
    GraphemeClusterBreak,
    WordBreak,
    SentenceBreak,
    LineBreak,
    EastAsianWidth,
    IndicConjunctBreak,
    ExtendedPictographic,
    /// Extended_Pictographic as emoji-data.txt gives it under the name `Emoji`.
    EmojiData,
}

/// All properties, by name.
pub const PROPERTIES: [Property; 10] = [
    Property::EastAsianWidth,
    Property::EmojiData,
    Property::ExtendedPictographic,
    Property::GeneralCategory,
    Property::GraphemeClusterBreak,
    Property::IndicConjunctBreak,
    Property::LineBreak,
    Property::Script,
    Property::SentenceBreak,
    Property::WordBreak,
];

impl Property {
    /// Its names in Unicode's PropertyAliases.txt, the long one first, with spaces between.
    pub fn names(self) -> &'static str
        ensures { result.now ≡ names_of self }
    {
        match self {
            Property::GeneralCategory => "General_Category gc",
            Property::Script => "Script sc",
            Property::GraphemeClusterBreak => "Grapheme_Cluster_Break GCB",
            Property::WordBreak => "Word_Break WB",
            Property::SentenceBreak => "Sentence_Break SB",
            Property::LineBreak => "Line_Break lb",
            Property::EastAsianWidth => "East_Asian_Width ea",
            Property::IndicConjunctBreak => "Indic_Conjunct_Break InCB",
            Property::ExtendedPictographic => "Extended_Pictographic ExtPict",
            Property::EmojiData => "Emoji",
        }
    }

    /// The names of its values, by number: the one that Unicode's file has first, with spaces
    /// between.
    pub fn values(self) -> &'static [&'static str]
        ensures { map (λ names. names.now) result.now ≡ values_of self }
    {
        match self {
            Property::GeneralCategory => &GENERAL_CATEGORIES,
            Property::Script => &SCRIPTS,
            Property::GraphemeClusterBreak => &GRAPHEME_CLUSTER_BREAKS,
            Property::WordBreak => &WORD_BREAKS,
            Property::SentenceBreak => &SENTENCE_BREAKS,
            Property::LineBreak => &LINE_BREAKS,
            Property::EastAsianWidth => &EAST_ASIAN_WIDTHS,
            Property::IndicConjunctBreak => &INDIC_CONJUNCT_BREAKS,
            Property::ExtendedPictographic => &BINARY_VALUES,
            Property::EmojiData => &EMOJI_DATA,
        }
    }

    /// The numbers of the values that code points have, as runs: the code point after a run times
    /// 2,048, plus the number.
    pub fn runs(self) -> &'static [u32]
        ensures { IsRunsOf result.now (number_of self) }
    {
        match self {
            Property::GeneralCategory => GeneralCategory::runs(),
            Property::Script => Script::runs(),
            Property::GraphemeClusterBreak => GraphemeClusterBreak::runs(),
            Property::WordBreak => WordBreak::runs(),
            Property::SentenceBreak => SentenceBreak::runs(),
            Property::LineBreak => LineBreak::runs(),
            Property::EastAsianWidth => EastAsianWidth::runs(),
            Property::IndicConjunctBreak => IndicConjunctBreak::runs(),
            Property::ExtendedPictographic | Property::EmojiData => extended_pictographic(),
        }
    }

    /// Whether a look-up finds its values in files alone. It finds those of General_Category and
    /// Script without.
    pub fn wants_file(self) -> bool
        ensures { result ≡ spec.wants_file self }
    {
        !matches!(self, Property::GeneralCategory | Property::Script)
    }
}

/// The property that has this name, in loose form.
pub fn property_named(name: &str) -> Option<Property>
    ensures { result ≡ spec.property_named name.now }
{
    PROPERTIES
        .iter()
        .copied()
        .find(|property| has_loose_name(property.names(), name))
}
