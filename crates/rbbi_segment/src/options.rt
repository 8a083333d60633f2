//! What the arguments ask for.

use crate::abbreviations::Language;
use crate::colors::When;
use crate::only::Wanted;
use rbbi_segment_tables::Kind;
use rbbi_text::Unit;

/// Where the table comes from.
#[derive(Clone, Copy)]
pub(crate) enum Basis<'a> {
    /// It is in the program.
    BuiltIn(Kind),
    /// It is made of the rule file of this name.
    Rules(&'a str),
    /// It is in the table file of this name.
    Table(&'a str),
}

/// How a segment is printed by itself.
#[derive(Clone, Copy)]
pub(crate) enum Layout {
    /// A line: start, end, status, and the segment in quotes.
    Text,
    /// A JSON object, in a line.
    Json,
    /// The segment as it is, in a line.
    Plain,
    /// The segment as it is, ended by NUL.
    Null,
}

/// How segments are printed.
#[derive(Clone, Copy)]
pub(crate) enum Format<'a> {
    /// Each by itself.
    Each(Layout),
    /// The text, with this mark where a segment begins or ends.
    Marked(Mark<'a>),
    /// The text in lines of at most so many columns.
    Lines(u32),
    /// How many there are of each status, and of all.
    Count,
}

/// What stands in a text where a segment begins or ends.
#[derive(Clone, Copy)]
pub(crate) struct Mark<'a> {
    pub(crate) text: &'a str,
    /// Its first character.
    pub(crate) first: char,
}

/// What is to be done.
#[derive(Clone, Copy)]
pub(crate) enum Task<'a> {
    /// Report the first fault of the rule file.
    Check,
    /// Print what changes nothing in the rule file of this name, or why the rules in a line, from
    /// 1, are needed.
    Lint(&'a str, Option<u32>),
    /// Print the segments of each text that is named.
    Segment,
}

/// What changes which boundaries are reported.
#[derive(Clone, Copy)]
pub(crate) enum Filtering<'a> {
    Nothing,
    /// The abbreviations of this language that are built in suppress them.
    Language(Language),
    /// The abbreviations of the file of this name suppress them.
    Abbreviations(&'a str),
    /// The pairs of the file of this name turn characters.
    Pairs(&'a str),
}

/// A property file and the name under which rules ask for it.
#[derive(Clone, Copy)]
pub(crate) struct Property<'a> {
    pub(crate) name: &'a str,
    pub(crate) file: &'a str,
}

/// What is explained.
#[derive(Clone, Copy)]
pub(crate) enum Asked {
    /// Each segment.
    All,
    /// What is at a place, in the unit.
    At(u32),
}

/// What the arguments ask for.
#[derive(Drop)]
pub(crate) struct Request<'a> {
    pub(crate) task: Task<'a>,
    /// The names of the texts; `-` is the standard input.
    pub(crate) names: Vec<&'a str>,
    /// Whether each text is headed by its name.
    pub(crate) has_headings: bool,
    pub(crate) basis: Basis<'a>,
    pub(crate) properties: Vec<Property<'a>>,
    pub(crate) ignore_dictionary: bool,
    pub(crate) filtering: Filtering<'a>,
    pub(crate) format: Format<'a>,
    pub(crate) unit: Unit,
    pub(crate) wanted: Wanted,
    /// Whether bytes of the text that aren't UTF-8 are replaced.
    pub(crate) is_lossy: bool,
    pub(crate) explain: Option<Asked>,
    pub(crate) color: When,
}
