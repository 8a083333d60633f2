//! What each fault means, and how to mend it.

/// What is reported of a fault beside its label.
#[derive(Clone, Copy)]
pub(crate) struct FaultText {
    label: &'static str,
    /// What is wrong.
    pub(crate) cause: &'static str,
    /// How to mend it.
    pub(crate) help: &'static str,
}

const ANOTHER: FaultText = FaultText {
    label: "",
    cause: "this can't be used",
    help: "docs/rules.md and docs/formats.md say what may stand there.",
};

/// A statement isn't ended.
pub(crate) const NO_SEMICOLON: FaultText = FaultText {
    label: "Syntax",
    cause: "a ; is missing after this",
    help: "Each statement ends with ;.",
};

/// A group isn't closed.
pub(crate) const OPEN_GROUP: FaultText = FaultText {
    label: "Syntax",
    cause: "this ( isn't closed",
    help: "Close it with ) in its statement; the character is \\(.",
};

/// A set isn't closed.
pub(crate) const OPEN_SET: FaultText = FaultText {
    label: "Syntax",
    cause: "this [ isn't closed",
    help: "Close it with ]; in a set ; is a character, and \\[ is the character [.",
};

/// A status stands where a repeat is meant.
pub(crate) const NO_REPEAT: FaultText = FaultText {
    label: "Syntax",
    cause: "this is a status, and no repeat",
    help: "Write a repeat out, as [0-9] [0-9] [0-9]; a status stands once, right before the ; of \
           its rule.",
};

/// What helps with a table file that is given as a rule file.
pub(crate) const TABLE_FILE: &str = "This is a table file, which goes to --table.";

static TEXTS: [FaultText; 44] = [
    FaultText {
        label: "TooLong",
        cause: "the file is too long",
        help: "A rule file has at most 1048576 bytes, a property file 8388608, a text 67108864.",
    },
    FaultText {
        label: "NotUtf8",
        cause: "the file isn't UTF-8",
        help: "Save it as UTF-8, or convert it from its encoding, as with iconv -f UTF-16 -t \
               UTF-8; a table file goes to --table.",
    },
    FaultText {
        label: "BadChar",
        cause: "unexpected character",
        help: "Write it with a backslash or in quotes, as \\@ or '@'.",
    },
    FaultText {
        label: "BadEscape",
        cause: "unknown escape",
        help: "Escapes are \\uHHHH, \\UHHHHHHHH, \\xHH, \\x{H..}, \\a \\b \\e \\f \\n \\r \\t \\v, \
               and a backslash before what is no ASCII letter or digit.",
    },
    FaultText {
        label: "OpenQuote",
        cause: "this quote isn't closed in its line",
        help: "A quoted sequence ends with ' in the line in which it begins; one quote as a \
               character is '' or \\'.",
    },
    FaultText {
        label: "OpenProperty",
        cause: "this property isn't closed in its line",
        help: "Write \\p{NAME}, \\p{NAME=VALUE}, [:NAME:] or [:NAME=VALUE:]; a set that begins \
               with a colon is [\\:a].",
    },
    FaultText {
        label: "BadTag",
        cause: "this isn't a status number",
        help: "A status is one number up to 2147483647 in braces, as {100}. A repeat is written \
               out, as a a a?; the character is \\{.",
    },
    FaultText {
        label: "BadName",
        cause: "no name follows",
        help: "A name is $ and a letter or _, then letters, digits and _; a control is !! and its \
               word, as !!chain; the character is \\$.",
    },
    FaultText {
        label: "Syntax",
        cause: "unexpected token",
        help: "A statement is a control, $name = EXPRESSION or a rule, and ends with ;.",
    },
    FaultText {
        label: "TooDeep",
        cause: "this is the 65th open bracket",
        help: "At most 64 brackets, round and square together, may be open. Give an inner part a \
               name, as $name = (a|b);.",
    },
    FaultText {
        label: "UnknownControl",
        cause: "there is no such control",
        help: "Controls are !!chain, !!quoted_literals_only, !!forward, !!reverse, !!safe_forward, \
               !!safe_reverse and !!lookAheadHardBreak.",
    },
    FaultText {
        label: "UnsupportedControl",
        cause: "this control isn't supported",
        help: "Write rules that need neither !!LBCMNoChain nor !!unquoted_literals.",
    },
    FaultText {
        label: "Dictionary",
        cause: "dictionaries aren't supported",
        help: "Remove the assignment, or give --ignore-dictionary, which makes $dictionary a name \
               like any other.",
    },
    FaultText {
        label: "Redefined",
        cause: "this name is already assigned",
        help: "A name is assigned once: give one of them another name.",
    },
    FaultText {
        label: "Undefined",
        cause: "no earlier statement assigns this name",
        help: "A name is assigned before its first use, and case matters.",
    },
    FaultText {
        label: "NotASet",
        cause: "this name stands for no set",
        help: "In a set a name stands for a set or a property alone: assign it as $name = [a];, \
               without round brackets and repeats.",
    },
    FaultText {
        label: "UnknownProperty",
        cause: "there is no such property or value",
        help: "A name alone is a general category, a script or a binary property, as \\p{Lu}.",
    },
    FaultText {
        label: "BadRange",
        cause: "the first character of this range is greater than its last",
        help: "Write the smaller one first, as a-z; the character is \\-.",
    },
    FaultText {
        label: "EmptySet",
        cause: "this set has no characters",
        help: "Look at what & and - leave of it; surrogates are in no set.",
    },
    FaultText {
        label: "BareLiteral",
        cause: "after !!quoted_literals_only a bare character isn't allowed",
        help: "Write it in quotes, as 'a', or in a set, as [a]; a name begins with $.",
    },
    FaultText {
        label: "EmptyFront",
        cause: "what stands before this / could match nothing",
        help: "Make one part of it required, as a+ in place of a*.",
    },
    FaultText {
        label: "EmptyRest",
        cause: "what follows this / could match nothing",
        help: "Make one part of it required, as a+ in place of a*.",
    },
    FaultText {
        label: "NoRules",
        cause: "there is no active rule",
        help: "A rule is an expression and ;, as [a-z]+;. Rules after !!reverse, !!safe_forward or \
               !!safe_reverse aren't active up to the next !!forward.",
    },
    FaultText {
        label: "TooManyRules",
        cause: "this is the 4097th rule",
        help: "At most 4096 are allowed; join some by |.",
    },
    FaultText {
        label: "TooManyLeaves",
        cause: "with this rule there are more than 8192 characters and sets, names replaced",
        help: "Use sets in place of alternatives, as [abc] for a|b|c, and + or * in place \
              of copies.",
    },
    FaultText {
        label: "TooManySlashes",
        cause: "this is the 33rd rule with a /",
        help: "At most 32 are allowed; join those with the same rest, as (a|b) / c.",
    },
    FaultText {
        label: "TooTall",
        cause: "this rule is nested more than 256 deep, names replaced",
        help: "Use fewer brackets and repeats in one another.",
    },
    FaultText {
        label: "TooManyCategories",
        cause: "the sets tell more than 999 kinds of characters apart",
        help: "Use fewer different characters and sets.",
    },
    FaultText {
        label: "TooManySets",
        cause: "the automaton has more than 16384 states",
        help: "Rules that have to remember much, as (a|b)*a(a|b)(a|b), take many: make \
              them shorter.",
    },
    FaultText {
        label: "TooManyRows",
        cause: "the least table has more than 4095 rows",
        help: "Rules that have to remember much, as (a|b)*a(a|b)(a|b), take many: make \
              them shorter.",
    },
    FaultText {
        label: "TooManyStatuses",
        cause: "there are more than 4095 different lists of statuses",
        help: "Use fewer different statuses.",
    },
    FaultText {
        label: "BadRow",
        cause: "this isn't a row of a property file",
        help: "A row is a code point or a range, and a value, as 0041..005A ; ALetter.",
    },
    FaultText {
        label: "SegmentTooLong",
        cause: "the end of a segment isn't found in 4194304 characters",
        help: "Break the text into shorter parts, or by rules that match less.",
    },
    FaultText {
        label: "TooManyChars",
        cause: "the text has more than 16777216 characters",
        help: "Split it into parts.",
    },
    FaultText {
        label: "BadMagic",
        cause: "this isn't a table file",
        help: "A rule file goes to --rules; rbbi compile RULES TABLE makes a table file of it.",
    },
    FaultText {
        label: "Short",
        cause: "the table file ends before its parts do",
        help: "Make it again with rbbi compile RULES TABLE.",
    },
    FaultText {
        label: "Trailing",
        cause: "bytes follow the table",
        help: "Make it again with rbbi compile RULES TABLE.",
    },
    FaultText {
        label: "BadRanges",
        cause: "the ranges of the table aren't valid",
        help: "Make it again with rbbi compile RULES TABLE.",
    },
    FaultText {
        label: "BadLists",
        cause: "the statuses of the table aren't valid",
        help: "Make it again with rbbi compile RULES TABLE.",
    },
    FaultText {
        label: "BadRows",
        cause: "the rows of the table aren't valid",
        help: "Make it again with rbbi compile RULES TABLE.",
    },
    FaultText {
        label: "BadFronts",
        cause: "the fronts of the table aren't valid",
        help: "Make it again with rbbi compile RULES TABLE.",
    },
    FaultText {
        label: "BadSafe",
        cause: "the safe pairs of the table aren't valid",
        help: "Make it again with rbbi compile RULES TABLE.",
    },
    FaultText {
        label: "BadLine",
        cause: "this line can't be used",
        help: "A line of --suppress is an abbreviation of at most 32 characters, with no space \
               before or after it; one of --tailor is two characters, as 2019 ; 0027, the first \
               in no earlier line. Lines that begin with # are skipped.",
    },
    FaultText {
        label: "Unreadable",
        cause: "the file can't be read",
        help: "Check that it exists and that you may read it.",
    },
];

/// What is reported of each fault.
fn texts() -> &'static [FaultText] {
    &TEXTS
}

/// What is reported of the fault with this label.
pub(crate) fn text_of(label: &str) -> FaultText {
    for text in texts() {
        if text.label == label {
            return *text;
        }
    }
    ANOTHER
}
