//! From the arguments to what they ask for.

use crate::abbreviations::Language;
use crate::colors::When;
use crate::escapes::append_name;
use crate::failure::{Failure, Status};
use crate::only::{Statuses, Wanted};
use crate::options::{Asked, Basis, Filtering, Format, Layout, Mark, Property, Request, Task};
use clap::error::ErrorKind;
use clap::{Arg, ArgAction, ArgMatches, Command, Error};
use rbbi_segment_tables::Kind;
use rbbi_text::{Unit, append, decimal};
use std::alloc::{AllocError, AllocFailed, Global};

const VERSION: &str = "2.5.0, with tables of Unicode 18.0";

const ABOUT: &str = "Break a text into graphemes, words, sentences or lines";

const LONG_ABOUT: &str = "Break a text into graphemes, words, sentences or lines.

It prints one line per segment: its start, its end, its status, and the segment in quotes.
The tables for the rules of Unicode (UAX #29 and UAX #14) are built in; --rules and --table
use your own.";

const AFTER_HELP: &str = "Examples:
  segment notes.txt                        the words of a file, and what is between them
  segment --only-words --count notes.txt   how many words there are
  segment --by sentence --format json -    the sentences of the standard input, as JSON
  segment --rules my.rules notes.txt       the segments by your rules
  segment --by line --explain 40 notes.txt why there is a boundary at 40, or none
  segment --check my.rules                 the first fault of your rules
  segment --lint my.rules                  what changes nothing in your rules

Exit status: 0 done; 1 the rule file has a fault; 2 invalid arguments, or a file that can't be
read, used or written; 3 --lint found something; 141 nobody reads the output any more.";

const BAD_PROPERTY: &[u8] = b"error: --prop takes NAME=FILE, as WB=WordBreakProperty.txt; NAME has \
    letters, digits, spaces, _ and -, with a letter or digit among them\n";

const NEEDS_RULES: &[u8] =
    b"error: --prop and --ignore-dictionary go with --rules, --check or --lint\n";

const BAD_LINE: &[u8] = b"error: --why takes the number of a line, from 1, and goes with --lint\n";

const BAD_STATUS: &[u8] =
    b"error: --only takes a status or a range of them, as 100, 100.. or 100..200\n";

const REVERSED_RANGE: &[u8] =
    b"error: --only takes the smaller status of a range first, as 100..200\n";

const BAD_MARK: &[u8] = b"error: --mark takes a text that isn't empty and doesn't begin with a \
    backslash\n";

const NEEDS_MARKED: &[u8] = b"error: --mark goes with --format marked\n";

const BAD_WIDTH: &[u8] = b"error: --width takes a number of columns, from 1\n";

const NEEDS_LINES: &[u8] = b"error: --width goes with --format lines\n";

const LINES_ARE_LINES: &[u8] = b"error: --format lines breaks by --by line, --rules or --table\n";

const LINES_ARE_WHOLE: &[u8] =
    b"error: --format lines prints the whole text, without --only and --only-words\n";

const ONE_FILE: &[u8] = b"error: --explain takes one file\n";

const NO_LANGUAGE: &[u8] = b"error: --suppress has the abbreviations of en and de alone; a file \
    with a name of two letters is written with its folder, as ./fr\n";

const ONE_INPUT: &[u8] =
    b"error: - stands for the standard input, which is read once: give the text or \
    the rules as a file\n";

const BAD_PLACE: &[u8] = b"error: --explain takes a place, which is a number, as 100\n";

/// Why arguments ask for nothing.
#[derive(Clone, Copy)]
enum Refusal {
    /// They are wrong, as the line says.
    Wrong(&'static [u8]),
    Memory,
}

impl From<AllocError> for Refusal {
    fn from(_error: AllocError) -> Refusal {
        Refusal::Memory
    }
}

impl<T: Drop> From<AllocFailed<T>> for Refusal {
    fn from(_error: AllocFailed<T>) -> Refusal {
        Refusal::Memory
    }
}

/// What an option takes.
#[derive(Clone, Copy)]
enum Takes {
    Nothing,
    /// One value, of this name.
    Value(&'static str),
    /// A value each time it is used.
    Values(&'static str),
    /// One value, or none.
    Optional(&'static str),
    /// One of these values.
    Choice(&'static str, &'static [&'static str]),
}

/// An option.
#[derive(Clone, Copy)]
struct Described {
    name: &'static str,
    short: Option<char>,
    takes: Takes,
    /// The options that it can't be used with.
    conflicts: &'static [&'static str],
    help: &'static str,
}

static OPTIONS: [Described; 22] = [
    Described {
        name: "by",
        short: Some('b'),
        takes: Takes::Choice(
            "KIND",
            &[
                "grapheme",
                "word",
                "sentence",
                "line",
                "line-strict",
                "line-normal",
                "line-loose",
                "line-cj",
                "line-normal-cj",
                "line-loose-cj",
            ],
        ),
        conflicts: &["rules", "table", "check", "lint"],
        help: "What the segments are, by the built-in tables [default: word]",
    },
    Described {
        name: "rules",
        short: None,
        takes: Takes::Value("RULES"),
        conflicts: &["table", "check", "lint"],
        help: "Break by this rule file",
    },
    Described {
        name: "table",
        short: None,
        takes: Takes::Value("TABLE"),
        conflicts: &["check", "lint"],
        help: "Break by this table file",
    },
    Described {
        name: "check",
        short: None,
        takes: Takes::Value("RULES"),
        conflicts: &[
            "file",
            "format",
            "count",
            "units",
            "only",
            "only-words",
            "null",
            "mark",
            "lossy",
            "width",
            "suppress",
            "tailor",
            "lint",
        ],
        help: "Report the first fault of this rule file, and how to mend it",
    },
    Described {
        name: "lint",
        short: None,
        takes: Takes::Value("RULES"),
        conflicts: &[
            "file",
            "format",
            "count",
            "units",
            "only",
            "only-words",
            "null",
            "mark",
            "lossy",
            "width",
            "suppress",
            "tailor",
        ],
        help: "Print what changes nothing in this rule file if it is left out",
    },
    Described {
        name: "why",
        short: None,
        takes: Takes::Value("LINE"),
        conflicts: &["by", "rules", "table", "check"],
        help: "With --lint, print a shortest text that shows why a line's rules are needed",
    },
    Described {
        name: "prop",
        short: None,
        takes: Takes::Values("NAME=FILE"),
        conflicts: &["by", "table"],
        help: "Look up \\p{NAME=VALUE} of the rule file in this property file",
    },
    Described {
        name: "ignore-dictionary",
        short: None,
        takes: Takes::Nothing,
        conflicts: &["by", "table"],
        help: "Accept an assignment to $dictionary in the rule file as any other",
    },
    Described {
        name: "format",
        short: Some('f'),
        takes: Takes::Choice("FORMAT", &["text", "json", "plain", "marked", "lines"]),
        conflicts: &["count"],
        help: "How segments are printed [default: text]",
    },
    Described {
        name: "count",
        short: Some('c'),
        takes: Takes::Nothing,
        conflicts: &[],
        help: "Print how many segments have each status, and how many there are",
    },
    Described {
        name: "null",
        short: Some('0'),
        takes: Takes::Nothing,
        conflicts: &["format", "count"],
        help: "Print each segment as it is, ended by NUL",
    },
    Described {
        name: "mark",
        short: None,
        takes: Takes::Value("TEXT"),
        conflicts: &[],
        help: "What marks segments in --format marked [default: |]",
    },
    Described {
        name: "width",
        short: None,
        takes: Takes::Value("COLUMNS"),
        conflicts: &[],
        help: "The columns of a line in --format lines [default: 72]",
    },
    Described {
        name: "units",
        short: Some('u'),
        takes: Takes::Choice("UNIT", &["chars", "utf8", "utf16"]),
        conflicts: &[],
        help: "What start and end count, from 0 [default: chars]",
    },
    Described {
        name: "only",
        short: Some('o'),
        takes: Takes::Value("STATUS"),
        conflicts: &[],
        help: "Only segments of this status, or of a range: 100, 100.., 100..200",
    },
    Described {
        name: "only-words",
        short: None,
        takes: Takes::Nothing,
        conflicts: &[],
        help: "Only segments with a letter or a digit",
    },
    Described {
        name: "suppress",
        short: None,
        takes: Takes::Value("FILE"),
        conflicts: &["tailor"],
        help: "No boundary after these abbreviations: those of a file, or en or de",
    },
    Described {
        name: "tailor",
        short: None,
        takes: Takes::Value("FILE"),
        conflicts: &[],
        help: "Break characters as others, by the pairs of this file",
    },
    Described {
        name: "lossy",
        short: None,
        takes: Takes::Nothing,
        conflicts: &[],
        help: "Replace what isn't UTF-8 by U+FFFD, and say how often",
    },
    Described {
        name: "no-filename",
        short: None,
        takes: Takes::Nothing,
        conflicts: &["check", "lint", "explain"],
        help: "Don't head the segments of each of several files by its name",
    },
    Described {
        name: "explain",
        short: None,
        takes: Takes::Optional("PLACE"),
        conflicts: &[
            "check", "lint", "format", "null", "count", "suppress", "tailor",
        ],
        help: "Say which rules make each segment, or what holds at PLACE",
    },
    Described {
        name: "color",
        short: None,
        takes: Takes::Choice("WHEN", &["auto", "always", "never"]),
        conflicts: &[],
        help: "Whether output has colours [default: auto]",
    },
];

/// All options.
fn options() -> &'static [Described] {
    &OPTIONS
}

/// The option that is described.
fn option_of<'a>(alloc: Global, described: &Described) -> Result<Arg<'a>, AllocError> {
    let mut arg = Arg::new(alloc, described.name)
        .long(described.name)
        .help(described.help);
    if let Some(short) = described.short {
        arg = arg.short(short);
    }
    for other in described.conflicts {
        arg = arg.conflicts_with(other)?;
    }
    Ok(match described.takes {
        Takes::Nothing => arg.action(ArgAction::SetTrue),
        Takes::Value(name) => arg.value_name(name).action(ArgAction::Set),
        Takes::Optional(name) => arg
            .value_name(name)
            .num_args(0..=1)
            .default_missing_value("")
            .action(ArgAction::Set),
        Takes::Values(name) => arg.value_name(name).action(ArgAction::Append),
        Takes::Choice(name, choices) => arg.value_name(name).value_parser(choices),
    })
}

/// The argument that names the texts.
fn file_argument<'a>(alloc: Global) -> Arg<'a> {
    Arg::new(alloc, "file")
        .value_name("FILE")
        .num_args(1..)
        .action(ArgAction::Append)
        .help("The texts; standard input if one is -, or none is given")
}

/// The command line of the program, with no arguments.
fn bare_command<'a>(alloc: Global) -> Command<'a> {
    Command::new(alloc, "segment")
        .no_binary_name(true)
        .version(VERSION)
        .about(ABOUT)
        .long_about(LONG_ABOUT)
        .after_long_help(AFTER_HELP)
}

/// The command line with an option more.
fn with_option<'a>(
    alloc: Global,
    command: Command<'a>,
    described: &Described,
) -> Result<Command<'a>, AllocError> {
    command.arg(option_of(alloc, described)?)
}

/// The command line of the program.
fn command<'a>(alloc: Global) -> Result<Command<'a>, AllocError> {
    let mut command = bare_command(alloc).arg(file_argument(alloc))?;
    for described in options() {
        command = with_option(alloc, command, described)?;
    }
    Ok(command)
}

/// The matches of these words, or why they have none.
fn parsed<'a>(alloc: Global, words: &'a Vec<String>) -> Result<ArgMatches<'a>, Error> {
    command(alloc)?.try_get_matches_from(words.as_slice())
}

/// The word with hidden characters as escapes.
fn escaped_word(alloc: Global, word: &str) -> Result<String, AllocError> {
    let mut bytes = Vec::new(alloc);
    append_name(word, &mut bytes)?;
    String::from_utf8_lossy(alloc, &bytes)
}

/// The words with hidden characters as escapes.
fn escaped(alloc: Global, words: &Vec<String>) -> Result<Vec<String>, AllocError> {
    let mut all = Vec::new(alloc);
    for word in words {
        all.push(escaped_word(alloc, word.as_str())?)?;
    }
    Ok(all)
}

/// What the arguments say.
#[derive(Drop)]
pub(crate) enum Meaning<'a> {
    /// What they ask for.
    Asks(Request<'a>),
    /// Help or the version is asked for: what goes to the standard output.
    Shows(Vec<u8>),
    /// They ask for nothing.
    Fails(Failure),
}

/// The line of a message. That of usage names texts only where they go with its options.
fn shown_line(line: &str) -> &str {
    let takes_no_text = line.contains(" --check ") || line.contains(" --lint ");
    match line.strip_suffix(" [FILE]...") {
        Some(shown) if takes_no_text && line.starts_with("Usage: ") => shown,
        _ => line,
    }
}

/// The message of an error.
fn message_of(alloc: Global, text: &str) -> Result<Vec<u8>, AllocError> {
    let mut message = Vec::new(alloc);
    for line in text.lines() {
        append(shown_line(line).as_bytes(), &mut message)?;
        append(b"\n", &mut message)?;
    }
    Ok(message)
}

/// What words say that have this error.
fn meaning_of<'a>(alloc: Global, error: &Error) -> Result<Meaning<'a>, AllocError> {
    if error.kind() == ErrorKind::OutOfMemory {
        return Ok(Meaning::Fails(Failure::Memory));
    }
    let text = format!(in alloc; "{error}")?;
    Ok(if error.use_stderr() {
        let message = message_of(alloc, text.as_str())?;
        Meaning::Fails(Failure::Told(Status::IsRefused, message))
    } else {
        Meaning::Shows(text.as_bytes().to_vec(alloc)?)
    })
}

/// What words say that have this error. A message shows hidden characters of the words as escapes:
/// it is that of the words with escapes in their place, which have the same error, since no name or
/// value of an option has a hidden character.
fn refused<'a>(
    alloc: Global,
    words: &Vec<String>,
    error: &Error,
) -> Result<Meaning<'a>, AllocError> {
    let escaped = escaped(alloc, words)?;
    match parsed(alloc, &escaped) {
        Ok(_) => meaning_of(alloc, error),
        Err(error) => meaning_of(alloc, &error),
    }
}

/// What the built-in table breaks into.
fn kind_of(matches: &ArgMatches<'_>) -> Kind {
    match matches.get_str("by") {
        Some("grapheme") => Kind::Grapheme,
        Some("word") => Kind::Word,
        Some("sentence") => Kind::Sentence,
        Some("line") => Kind::Line,
        Some("line-strict") => Kind::LineStrict,
        Some("line-normal") => Kind::LineNormal,
        Some("line-loose") => Kind::LineLoose,
        Some("line-cj") => Kind::LineCj,
        Some("line-normal-cj") => Kind::LineNormalCj,
        Some("line-loose-cj") => Kind::LineLooseCj,
        _ if matches.get_str("format") == Some("lines") => Kind::Line,
        _ => Kind::Word,
    }
}

/// The mark of the format with marks.
fn mark_of<'a>(matches: &ArgMatches<'a>) -> Result<Mark<'a>, Refusal> {
    let text = matches.get_str("mark").unwrap_or("|");
    match text.chars().next() {
        Some(first) if first != '\\' => Ok(Mark { text, first }),
        _ => Err(Refusal::Wrong(BAD_MARK)),
    }
}

/// How many columns a line has at most in the format of lines. The options that choose what is
/// printed, and by which built-in table, don't go with it.
fn width_of(matches: &ArgMatches<'_>) -> Result<u32, Refusal> {
    if matches!(
        kind_of(matches),
        Kind::Grapheme | Kind::Word | Kind::Sentence
    ) {
        return Err(Refusal::Wrong(LINES_ARE_LINES));
    }
    if matches.get_str("only").is_some() || matches.get_flag("only-words") {
        return Err(Refusal::Wrong(LINES_ARE_WHOLE));
    }
    let width = matches.get_str("width").unwrap_or("72");
    match decimal(width.as_bytes(), u32::MAX) {
        Some(width) if width > 0 => Ok(width),
        _ => Err(Refusal::Wrong(BAD_WIDTH)),
    }
}

/// The format of this name, with its mark or its width.
fn format_named<'a>(name: Option<&str>, matches: &ArgMatches<'a>) -> Result<Format<'a>, Refusal> {
    Ok(match name {
        Some("marked") => Format::Marked(mark_of(matches)?),
        Some("lines") => Format::Lines(width_of(matches)?),
        Some("json") => Format::Each(Layout::Json),
        Some("plain") => Format::Each(Layout::Plain),
        _ => Format::Each(Layout::Text),
    })
}

/// The format. A mark and a width go with no other than theirs.
fn format_of<'a>(matches: &ArgMatches<'a>) -> Result<Format<'a>, Refusal> {
    let name = matches.get_str("format");
    if matches.get_str("mark").is_some() && name != Some("marked") {
        return Err(Refusal::Wrong(NEEDS_MARKED));
    }
    if matches.get_str("width").is_some() && name != Some("lines") {
        return Err(Refusal::Wrong(NEEDS_LINES));
    }
    if matches.get_flag("count") {
        return Ok(Format::Count);
    }
    if matches.get_flag("null") {
        return Ok(Format::Each(Layout::Null));
    }
    format_named(name, matches)
}

fn unit_of(matches: &ArgMatches<'_>) -> Unit {
    match matches.get_str("units") {
        Some("utf8") => Unit::Utf8,
        Some("utf16") => Unit::Utf16,
        _ => Unit::Chars,
    }
}

fn color_of(matches: &ArgMatches<'_>) -> When {
    match matches.get_str("color") {
        Some("always") => When::Always,
        Some("never") => When::Never,
        _ => When::Auto,
    }
}

/// The name of the text where none is given as such. One may come right after `--explain`, since it
/// is no number.
fn lone_name<'a>(matches: &ArgMatches<'a>) -> &'a str {
    match matches.get_str("explain") {
        Some(file) if !file.is_empty() && place_of(file).is_none() => file,
        _ => "-",
    }
}

/// The names of the texts.
fn names_of<'a>(alloc: Global, matches: &ArgMatches<'a>) -> Result<Vec<&'a str>, AllocError> {
    let mut names = Vec::new(alloc);
    for name in matches.get_strs("file").unwrap_or(&[]) {
        names.push(*name)?;
    }
    if names.is_empty() {
        names.push(lone_name(matches))?;
    }
    Ok(names)
}

/// The place that a text names.
fn place_of(text: &str) -> Option<u32> {
    decimal(text.as_bytes(), u32::MAX)
}

/// What is to be explained.
fn explain_of(matches: &ArgMatches<'_>) -> Result<Option<Asked>, Refusal> {
    let Some(value) = matches.get_str("explain") else {
        return Ok(None);
    };
    if matches.get_strs("file").unwrap_or(&[]).len() > 1 {
        return Err(Refusal::Wrong(ONE_FILE));
    }
    match place_of(value) {
        Some(place) => Ok(Some(Asked::At(place))),
        None if value.is_empty() || !matches.contains_id("file") => Ok(Some(Asked::All)),
        None => Err(Refusal::Wrong(BAD_PLACE)),
    }
}

/// The line whose rules are asked for, which goes with `--lint`.
fn line_of(matches: &ArgMatches<'_>) -> Result<Option<u32>, Refusal> {
    let Some(text) = matches.get_str("why") else {
        return Ok(None);
    };
    match decimal(text.as_bytes(), u32::MAX) {
        Some(line) if line > 0 && matches.get_str("lint").is_some() => Ok(Some(line)),
        _ => Err(Refusal::Wrong(BAD_LINE)),
    }
}

/// What is to be done, and by which table. `why` is the line whose rules are asked for.
fn task_of<'a>(matches: &ArgMatches<'a>, why: Option<u32>) -> (Task<'a>, Basis<'a>) {
    if let Some(rules) = matches.get_str("lint") {
        return (Task::Lint(rules, why), Basis::Rules(rules));
    }
    if let Some(rules) = matches.get_str("check") {
        return (Task::Check, Basis::Rules(rules));
    }
    let task = Task::Segment;
    if let Some(rules) = matches.get_str("rules") {
        return (task, Basis::Rules(rules));
    }
    match matches.get_str("table") {
        Some(table) => (task, Basis::Table(table)),
        None => (task, Basis::BuiltIn(kind_of(matches))),
    }
}

/// Whether rules can ask for a property by this name: letters, digits, spaces, `_` and `-` of
/// ASCII, with a letter or digit among them.
fn is_property_name(name: &str) -> bool {
    let bytes = name.as_bytes();
    bytes.iter().any(|byte| byte.is_ascii_alphanumeric())
        && bytes.iter().all(|byte| byte.is_ascii_alphanumeric()
            || matches!(*byte, b' ' | b'_' | b'-'))
}

/// The property file that a value gives, separated from its name at the first `=`.
fn property_of(given: &str) -> Result<Property<'_>, Refusal> {
    match given.split_once('=') {
        Some((name, file)) if is_property_name(name) && !file.is_empty() => {
            Ok(Property { name, file })
        }
        _ => Err(Refusal::Wrong(BAD_PROPERTY)),
    }
}

/// The property files.
fn properties_of<'a>(
    alloc: Global,
    matches: &ArgMatches<'a>,
) -> Result<Vec<Property<'a>>, Refusal> {
    let mut properties = Vec::new(alloc);
    for given in matches.get_strs("prop").unwrap_or(&[]) {
        properties.push(property_of(given)?)?;
    }
    Ok(properties)
}

fn statuses_of(matches: &ArgMatches<'_>) -> Result<Statuses, Refusal> {
    let Some(text) = matches.get_str("only") else {
        return Ok(Statuses::ALL);
    };
    match Statuses::of(text) {
        Some(statuses) if statuses.least <= statuses.greatest => Ok(statuses),
        Some(_) => Err(Refusal::Wrong(REVERSED_RANGE)),
        None => Err(Refusal::Wrong(BAD_STATUS)),
    }
}

fn wanted_of(matches: &ArgMatches<'_>) -> Result<Wanted, Refusal> {
    Ok(Wanted {
        statuses: statuses_of(matches)?,
        only_words: matches.get_flag("only-words"),
    })
}

/// Whether a name is that of a language: two small letters.
fn is_language(name: &str) -> bool {
    name.len() == 2 && name.bytes().all(|byte| byte.is_ascii_lowercase())
}

/// The filter that is named. A file of abbreviations that has the name of a language is `./en`.
fn filtering_of<'a>(matches: &ArgMatches<'a>) -> Result<Filtering<'a>, Refusal> {
    match matches.get_str("suppress") {
        Some("en") => return Ok(Filtering::Language(Language::English)),
        Some("de") => return Ok(Filtering::Language(Language::German)),
        Some(name) if is_language(name) => return Err(Refusal::Wrong(NO_LANGUAGE)),
        Some(name) => return Ok(Filtering::Abbreviations(name)),
        None => {}
    }
    Ok(match matches.get_str("tailor") {
        Some(name) => Filtering::Pairs(name),
        None => Filtering::Nothing,
    })
}

/// How many names of a list are that of the standard input.
fn inputs_in(names: &[&str]) -> usize {
    names.iter().filter(|name| **name == "-").count()
}

/// How many times the standard input is to be read.
fn inputs_of(matches: &ArgMatches<'_>, choices: Choices<'_>, names: &[&str]) -> usize {
    let texts = match choices.task {
        Task::Segment => inputs_in(names),
        Task::Check | Task::Lint(_, _) => 0,
    };
    let mut count = texts;
    for name in ["rules", "table", "check", "lint", "suppress", "tailor"] {
        if matches.get_str(name) == Some("-") {
            count = count.saturating_add(1);
        }
    }
    for given in matches.get_strs("prop").unwrap_or(&[]) {
        if given.ends_with("=-") {
            count = count.saturating_add(1);
        }
    }
    count
}

/// What is asked for beside the files.
#[derive(Clone, Copy)]
struct Choices<'a> {
    task: Task<'a>,
    basis: Basis<'a>,
    format: Format<'a>,
    wanted: Wanted,
    explain: Option<Asked>,
}

/// Whether options are given that are about rules alone.
fn is_about_rules(matches: &ArgMatches<'_>) -> bool {
    matches.get_flag("ignore-dictionary") || !matches.get_strs("prop").unwrap_or(&[]).is_empty()
}

/// What is asked for beside the files.
fn choices_of<'a>(matches: &ArgMatches<'a>) -> Result<Choices<'a>, Refusal> {
    let (task, basis) = task_of(matches, line_of(matches)?);
    if let Basis::BuiltIn(_) = basis
        && is_about_rules(matches)
    {
        return Err(Refusal::Wrong(NEEDS_RULES));
    }
    Ok(Choices {
        task,
        basis,
        format: format_of(matches)?,
        wanted: wanted_of(matches)?,
        explain: explain_of(matches)?,
    })
}

/// What is asked for of the files that are given.
fn request_of<'a>(
    alloc: Global,
    matches: &ArgMatches<'a>,
    choices: Choices<'a>,
) -> Result<Request<'a>, Refusal> {
    let properties = properties_of(alloc, matches)?;
    let names = names_of(alloc, matches)?;
    if inputs_of(matches, choices, names.as_slice()) > 1 {
        return Err(Refusal::Wrong(ONE_INPUT));
    }
    let has_headings = names.len() > 1 && !matches.get_flag("no-filename");
    Ok(Request {
        task: choices.task,
        names,
        has_headings,
        basis: choices.basis,
        properties,
        ignore_dictionary: matches.get_flag("ignore-dictionary"),
        filtering: filtering_of(matches)?,
        format: choices.format,
        unit: unit_of(matches),
        wanted: choices.wanted,
        is_lossy: matches.get_flag("lossy"),
        explain: choices.explain,
        color: color_of(matches),
    })
}

/// What matches say.
fn asked_for<'a>(alloc: Global, matches: &ArgMatches<'a>) -> Result<Meaning<'a>, Refusal> {
    let choices = choices_of(matches)?;
    Ok(Meaning::Asks(request_of(alloc, matches, choices)?))
}

/// What arguments say that are refused.
fn fails<'a>(alloc: Global, refusal: Refusal) -> Meaning<'a> {
    match refusal {
        Refusal::Wrong(line) => match line.to_vec(alloc) {
            Ok(line) => Meaning::Fails(Failure::Told(Status::IsRefused, line)),
            Err(_) => Meaning::Fails(Failure::Memory),
        },
        Refusal::Memory => Meaning::Fails(Failure::Memory),
    }
}

/// What the arguments say.
pub(crate) fn parse<'a>(alloc: Global, words: &'a Vec<String>) -> Meaning<'a> {
    match parsed(alloc, words) {
        Ok(matches) => match asked_for(alloc, &matches) {
            Ok(meaning) => meaning,
            Err(refusal) => fails(alloc, refusal),
        },
        Err(error) => match refused(alloc, words, &error) {
            Ok(meaning) => meaning,
            Err(_) => Meaning::Fails(Failure::Memory),
        },
    }
}
