//! The property files, and the property of each.

use rbbi_builtin::Property;

/// All files, by name. N of East_Asian_Width and XX of Line_Break have all their rows, of which
/// Unicode's files have some.
pub const FILES: [(&str, Property); 9] = [
    ("DerivedCoreProperties.txt", Property::IndicConjunctBreak),
    ("DerivedGeneralCategory.txt", Property::GeneralCategory),
    ("EastAsianWidth.txt", Property::EastAsianWidth),
    ("GraphemeBreakProperty.txt", Property::GraphemeClusterBreak),
    ("LineBreak.txt", Property::LineBreak),
    ("Scripts.txt", Property::Script),
    ("SentenceBreakProperty.txt", Property::SentenceBreak),
    ("WordBreakProperty.txt", Property::WordBreak),
    ("emoji-data.txt", Property::EmojiData),
];

/// What stands before the value in each row.
pub fn field(property: Property) -> &'static str {
    match property {
        Property::IndicConjunctBreak => "InCB; ",
        _ => "",
    }
}

/// The value that gets no rows, since Unicode's file has none of it.
pub fn unlisted(property: Property) -> &'static str {
    match property {
        Property::IndicConjunctBreak => "None",
        Property::GraphemeClusterBreak | Property::SentenceBreak | Property::WordBreak => "Other",
        Property::Script => "Unknown",
        Property::EmojiData => "No",
        _ => "",
    }
}
