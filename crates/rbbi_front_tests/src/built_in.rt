//! The properties that are built in, against the kit's own look-up of names and Unicode's files.
use rbbi_builtin::{Property, Unknown, add_asked_for, advice_at};
use rbbi_props::{PropTable, has_loose_name};
use rbbi_sets::CodeSet;
use std::alloc::{AllocError, Global};
use std::process::Abort;
use ucd_breaks::{GraphemeClusterBreak, LineBreak, SentenceBreak, WordBreak};
use ucd_category::GeneralCategory;
use ucd_derived::IndicConjunctBreak;
use ucd_east_asian::EastAsianWidth;
use ucd_script::Script;
use unicode::sets::{by_value, normalize};

/// Whether a range of the set has all from one code point to another.
fn has_all(found: &CodeSet, low: u32, high: u32) -> bool {
    for range in found.ranges() {
        if range.low <= low && high <= range.high {
            return true;
        }
    }
    false
}

/// The number of code points of a set.
fn size_of(set: &CodeSet) -> u32 {
    let mut size: u32 = 0;
    for range in set.ranges() {
        size = size
            .wrapping_add(range.high.wrapping_sub(range.low))
            .wrapping_add(1);
    }
    size
}

/// Whether a set has all these ranges, and is as large.
fn is_set(found: &CodeSet, ranges: &[(u32, u32)]) -> bool {
    let mut left = size_of(found);
    for (low, high) in ranges {
        if !has_all(found, *low, *high) {
            return false;
        }
        left = left.wrapping_sub(high.wrapping_sub(*low)).wrapping_sub(1);
    }
    left == 0
}

/// A name as the kit compares it.
fn normalized(alloc: Global, name: &str) -> Result<Vec<u8>, AllocError> {
    normalize(alloc, name.chars().collect::<Vec<char>>(alloc)?.as_slice())
}

/// Whether a set is the one that the kit finds for a property and a value.
fn is_kits(rt: &impl Abort, alloc: Global, found: &CodeSet, name: &str, value: &str) -> bool {
    let name = normalized(alloc, name).expect(rt, "a name");
    let value = normalized(alloc, value).expect(rt, "a value");
    match by_value(&name, &value) {
        Ok(set) => is_set(found, set.ranges(alloc).expect(rt, "ranges").as_slice()),
        Err(_) => false,
    }
}

/// Asserts that a value has the kit's set by each name of its property.
fn check_value(rt: &impl Abort, alloc: Global, files: &PropTable, names: &str, value: &str) {
    let found = files
        .lookup(alloc, "x", Some(value))
        .expect(rt, value)
        .expect(rt, value);
    for name in names.split(' ') {
        assert!(rt; is_kits(rt, alloc, &found, name, value), "{name}={value}");
    }
}

const COMPARED: [Property; 5] = [
    Property::GeneralCategory,
    Property::Script,
    Property::GraphemeClusterBreak,
    Property::WordBreak,
    Property::SentenceBreak,
];

#[test]
fn names_are_those_of_the_kit(rt: HostRuntime) {
    for property in &COMPARED {
        let mut files = PropTable::new(rt.alloc());
        files
            .add_runs("x", property.runs(), property.values())
            .expect(&rt, "a property");
        for names in property.values() {
            for value in names.split(' ') {
                check_value(&rt, rt.alloc(), &files, property.names(), value);
            }
        }
    }
}

/// The kit's name of a character's value, as its type is written. Extended_Pictographic has none.
fn kits_name(alloc: Global, property: Property, c: char) -> Result<String, AllocError> {
    match property {
        Property::GeneralCategory => format!(in alloc; "{:?}", GeneralCategory::for_char(c)),
        Property::Script => format!(in alloc; "{:?}", Script::for_char(c)),
        Property::GraphemeClusterBreak => {
            format!(in alloc; "{:?}", GraphemeClusterBreak::for_char(c))
        }
        Property::WordBreak => format!(in alloc; "{:?}", WordBreak::for_char(c)),
        Property::SentenceBreak => format!(in alloc; "{:?}", SentenceBreak::for_char(c)),
        Property::LineBreak => format!(in alloc; "{:?}", LineBreak::for_char(c)),
        Property::EastAsianWidth => format!(in alloc; "{:?}", EastAsianWidth::for_char(c)),
        Property::IndicConjunctBreak => format!(in alloc; "{:?}", IndicConjunctBreak::for_char(c)),
        Property::ExtendedPictographic | Property::EmojiData => Ok(String::new(alloc)),
    }
}

/// Whether the value of a run has the name that the kit gives to the value of its last code point.
/// A surrogate is no character.
fn is_named_as_in_kit(rt: &impl Abort, alloc: Global, property: Property, run: u32) -> bool {
    let Some(c) = char::from_u32((run / 2048).wrapping_sub(1)) else {
        return true;
    };
    let name = kits_name(alloc, property, c).expect(rt, "a name");
    match property.values().get((run % 2048) as usize) {
        Some(names) => has_loose_name(names, name.as_str()),
        None => false,
    }
}

const OF_SEVERAL_VALUES: [Property; 8] = [
    Property::GeneralCategory,
    Property::Script,
    Property::GraphemeClusterBreak,
    Property::WordBreak,
    Property::SentenceBreak,
    Property::LineBreak,
    Property::EastAsianWidth,
    Property::IndicConjunctBreak,
];

#[test]
fn values_stand_at_the_numbers_of_the_kit(rt: HostRuntime) {
    for property in &OF_SEVERAL_VALUES {
        for run in property.runs() {
            assert!(rt;
                is_named_as_in_kit(&rt, rt.alloc(), *property, *run),
                "{run}"
            );
        }
    }
}

/// Each value in Unicode's LineBreak.txt, with the first code point that has it.
#[rattlefmt::skip]
const LINES: [(&str, u32); 49] = [
    ("AI", 0xA7), ("AK", 0x1B05), ("AL", 0x23), ("AP", 0x11003), ("AS", 0x1B50), ("B2", 0x2014),
    ("BA", 0x9), ("BB", 0xB4), ("BK", 0xB), ("CB", 0xFFFC), ("CJ", 0x3041), ("CL", 0x7D),
    ("CM", 0x0), ("CP", 0x29), ("CR", 0xD), ("EB", 0x261D), ("EM", 0x1F3FB), ("EX", 0x21),
    ("GL", 0xA0), ("H2", 0xAC00), ("H3", 0xAC01), ("HH", 0xAD), ("HL", 0x5D0), ("HY", 0x2D),
    ("ID", 0x1B5C), ("IN", 0x2024), ("IS", 0x2C), ("JL", 0x1100), ("JT", 0x11A8), ("JV", 0x1160),
    ("LF", 0xA), ("NL", 0x85), ("NS", 0x17D6), ("NU", 0x30), ("OP", 0x28), ("PO", 0x25),
    ("PR", 0x24), ("QU", 0x22), ("RI", 0x1F1E6), ("SA", 0xE01), ("SG", 0xD800), ("SP", 0x20),
    ("SY", 0x2F), ("VF", 0x1BF2), ("VI", 0x1B44), ("WJ", 0x2060), ("XX", 0x378), ("ZW", 0x200B),
    ("ZWJ", 0x200D),
];

/// The same of EastAsianWidth.txt.
#[rattlefmt::skip]
const WIDTHS: [(&str, u32); 6] = [
    ("A", 0xA1), ("F", 0x3000), ("H", 0x20A9), ("N", 0x0), ("Na", 0x20), ("W", 0x1100),
];

/// The same of DerivedCoreProperties.txt, for Indic_Conjunct_Break.
#[rattlefmt::skip]
const CONJUNCTS: [(&str, u32); 4] = [
    ("Consonant", 0x915), ("Extend", 0x300), ("Linker", 0x94D), ("None", 0x41),
];

/// The names of both values in PropertyValueAliases.txt, with a code point of emoji-data.txt that has
/// the property, and one that hasn't.
#[rattlefmt::skip]
const PICTOGRAPHS: [(&str, u32); 8] = [
    ("Yes", 0xA9), ("Y", 0xA9), ("True", 0xA9), ("T", 0xA9), ("No", 0xAA), ("N", 0xAA),
    ("False", 0xAA), ("F", 0xAA),
];

/// The properties whose values the kit finds by no name.
const OF_FILES: [(Property, &[(&str, u32)]); 4] = [
    (Property::LineBreak, &LINES),
    (Property::EastAsianWidth, &WIDTHS),
    (Property::IndicConjunctBreak, &CONJUNCTS),
    (Property::ExtendedPictographic, &PICTOGRAPHS),
];

/// Whether each value has its code point.
fn have_values(rt: &impl Abort, alloc: Global, property: Property, rows: &[(&str, u32)]) -> bool {
    let mut files = PropTable::new(alloc);
    files
        .add_runs("x", property.runs(), property.values())
        .expect(rt, "a property");
    for row in rows {
        match files.lookup(alloc, "x", Some(row.0)).expect(rt, row.0) {
            Some(found) if found.has(row.1) => {}
            _ => return false,
        }
    }
    true
}

#[test]
fn names_are_those_of_unicodes_files(rt: HostRuntime) {
    for row in &OF_FILES {
        assert!(rt; have_values(&rt, rt.alloc(), row.0, row.1));
    }
}

/// Rules, the name and the value that they ask for, and a code point with the value and one without
/// it, of Unicode's files.
const ASKED: [(&str, &str, &str, u32, u32); 10] = [
    (
        "\\p{lb=Open_Punctuation};",
        "lb",
        "Open_Punctuation",
        0x28,
        0x29,
    ),
    ("\\p{LINE BREAK=op};", "line-break", "OP", 0x28, 0x41),
    ("[:lb=SA:];", "lb", "SA", 0xE01, 0x41),
    ("\\P{ea=Wide};", "ea", "wide", 0x3042, 0x41),
    (
        "[\\p{EastAsianWidth=W}];",
        "EastAsianWidth",
        "W",
        0x4E00,
        0xFF71,
    ),
    ("\\p{InCB=Linker};", "InCB", "Linker", 0x94D, 0x915),
    (
        "\\p{Indic_Conjunct_Break=Consonant};",
        "Indic_Conjunct_Break",
        "Consonant",
        0x915,
        0x94D,
    ),
    ("\\p{ExtPict=Y};", "ExtPict", "Y", 0x1F600, 0x41),
    (
        "\\p{Extended_Pictographic=False};",
        "Extended_Pictographic",
        "False",
        0x41,
        0xA9,
    ),
    (
        "\\p{Emoji=Extended_Pictographic};",
        "Emoji",
        "Extended_Pictographic",
        0xA9,
        0x23,
    ),
];

#[test]
fn values_are_found_by_their_names(rt: HostRuntime) {
    for row in &ASKED {
        let (rules, name, value, member, other) = *row;
        let mut files = PropTable::new(rt.alloc());
        add_asked_for(rt.alloc(), rules, &mut files).expect(&rt, rules);
        let found = files
            .lookup(rt.alloc(), name, Some(value))
            .expect(&rt, rules);
        let set = found.expect(&rt, rules);
        assert!(rt; set.has(member) && !set.has(other), "{rules}");
    }
}

#[test]
fn given_files_go_first(rt: HostRuntime) {
    let mut files = PropTable::new(rt.alloc());
    files.add("wb", b"0041 ; ALetter").expect(&rt, "a file");
    let rules = "\\p{WB=LE}; \\p{W_B=ALetter}; \\p{sc=Latn}; \\p{L};";
    add_asked_for(rt.alloc(), rules, &mut files).expect(&rt, rules);
    assert!(rt; files.len() == 1);
    let fault = "\\p{GCB=T}; 'a";
    add_asked_for(rt.alloc(), fault, &mut files).expect(&rt, fault);
    assert!(rt; files.len() == 1);
}

/// Rules, the place of a property, what isn't known of it, and the names that are near.
const UNKNOWN: [(&str, u32, Unknown, &[&str]); 7] = [
    (
        "\\p{WB=ALeter};",
        0,
        Unknown::Value(Property::WordBreak),
        &["ALetter"],
    ),
    (
        "a \\p{lb=Exclam};",
        2,
        Unknown::Value(Property::LineBreak),
        &["Exclamation"],
    ),
    ("\\p{WordBrake=LE};", 0, Unknown::Property, &["Word_Break"]),
    ("\\p{scx=Latn};", 0, Unknown::Property, &["sc"]),
    ("\\p{Latim};", 0, Unknown::Name, &["Latin"]),
    ("\\p{WB};", 0, Unknown::NoValue(Property::WordBreak), &[]),
    ("\\p{given=x};", 0, Unknown::ValueOfFile, &[]),
];

/// Whether these are the names.
fn are_names(found: &[&str], want: &[&str]) -> bool {
    if found.len() != want.len() {
        return false;
    }
    for (name, other) in found.iter().zip(want) {
        if *name != *other {
            return false;
        }
    }
    true
}

#[test]
fn near_names(rt: HostRuntime) {
    let mut files = PropTable::new(rt.alloc());
    files.add("Given", b"0041 ; y").expect(&rt, "a file");
    for row in &UNKNOWN {
        let (rules, place, unknown, near) = *row;
        let advice = advice_at(rt.alloc(), rules, place, &files).expect(&rt, rules);
        let advice = advice.expect(&rt, rules);
        assert!(rt;
            advice.unknown == unknown && are_names(&advice.near, near),
            "{rules}"
        );
    }
}
