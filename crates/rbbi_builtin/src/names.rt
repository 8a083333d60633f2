//! The names of the values of properties: those of Unicode's PropertyValueAliases.txt.
//!
//! The index of a text is the number of its value in the runs of the kit's table. The text has the
//! value's names with spaces between. The first is the one that the property's file has. Names that
//! differ only in case, spaces, `_` and `-` are one name here. A value that no code point has isn't
//! listed, as E_Base of Grapheme_Cluster_Break, or Katakana_Or_Hiragana of Script.

/// The values of General_Category, without its groups.
#[rattlefmt::skip]
pub const GENERAL_CATEGORIES: [&str; 30] = [
    "Lu Uppercase_Letter", "Ll Lowercase_Letter", "Lt Titlecase_Letter", "Lm Modifier_Letter",
    "Lo Other_Letter", "Mn Nonspacing_Mark", "Mc Spacing_Mark", "Me Enclosing_Mark",
    "Nd Decimal_Number digit", "Nl Letter_Number", "No Other_Number", "Pc Connector_Punctuation",
    "Pd Dash_Punctuation", "Ps Open_Punctuation", "Pe Close_Punctuation", "Pi Initial_Punctuation",
    "Pf Final_Punctuation", "Po Other_Punctuation", "Sm Math_Symbol", "Sc Currency_Symbol",
    "Sk Modifier_Symbol", "So Other_Symbol", "Zs Space_Separator", "Zl Line_Separator",
    "Zp Paragraph_Separator", "Cc Control cntrl", "Cf Format", "Cs Surrogate", "Co Private_Use",
    "Cn Unassigned",
];

/// The values of Script.
#[rattlefmt::skip]
pub const SCRIPTS: [&str; 178] = [
    "Adlam Adlm", "Caucasian_Albanian Aghb", "Ahom", "Arabic Arab", "Imperial_Aramaic Armi",
    "Armenian Armn", "Avestan Avst", "Balinese Bali", "Bamum Bamu", "Bassa_Vah Bass", "Batak Batk",
    "Bengali Beng", "Beria_Erfe Berf", "Bhaiksuki Bhks", "Bopomofo Bopo", "Brahmi Brah",
    "Braille Brai", "Buginese Bugi", "Buhid Buhd", "Chakma Cakm", "Canadian_Aboriginal Cans",
    "Carian Cari", "Cham", "Cherokee Cher", "Chorasmian Chrs", "Coptic Copt Qaac",
    "Cypro_Minoan Cpmn", "Cypriot Cprt", "Cyrillic Cyrl", "Devanagari Deva", "Dives_Akuru Diak",
    "Dogra Dogr", "Deseret Dsrt", "Duployan Dupl", "Egyptian_Hieroglyphs Egyp", "Elbasan Elba",
    "Elymaic Elym", "Ethiopic Ethi", "Garay Gara", "Georgian Geor", "Glagolitic Glag",
    "Gunjala_Gondi Gong", "Masaram_Gondi Gonm", "Gothic Goth", "Grantha Gran", "Greek Grek",
    "Gujarati Gujr", "Gurung_Khema Gukh", "Gurmukhi Guru", "Hangul Hang", "Han Hani",
    "Hanunoo Hano", "Hatran Hatr", "Hebrew Hebr", "Hiragana Hira", "Anatolian_Hieroglyphs Hluw",
    "Pahawh_Hmong Hmng", "Nyiakeng_Puachue_Hmong Hmnp", "Old_Hungarian Hung", "Old_Italic Ital",
    "Javanese Java", "Jurchen Jurc", "Kayah_Li Kali", "Katakana Kana", "Kawi", "Kharoshthi Khar",
    "Khmer Khmr", "Khojki Khoj", "Khitan_Small_Script Kits", "Kannada Knda", "Kirat_Rai Krai",
    "Kaithi Kthi", "Tai_Tham Lana", "Lao Laoo", "Latin Latn", "Lepcha Lepc", "Limbu Limb",
    "Linear_A Lina", "Linear_B Linb", "Lisu", "Lycian Lyci", "Lydian Lydi", "Mahajani Mahj",
    "Makasar Maka", "Mandaic Mand", "Manichaean Mani", "Marchen Marc", "Medefaidrin Medf",
    "Mende_Kikakui Mend", "Meroitic_Cursive Merc", "Meroitic_Hieroglyphs Mero", "Malayalam Mlym",
    "Modi", "Mongolian Mong", "Mro Mroo", "Meetei_Mayek Mtei", "Multani Mult", "Myanmar Mymr",
    "Nag_Mundari Nagm", "Nandinagari Nand", "Old_North_Arabian Narb", "Nabataean Nbat", "Newa",
    "Nko Nkoo", "Nushu Nshu", "Ogham Ogam", "Ol_Chiki Olck", "Ol_Onal Onao", "Old_Turkic Orkh",
    "Oriya Orya", "Osage Osge", "Osmanya Osma", "Old_Uyghur Ougr", "Palmyrene Palm",
    "Pau_Cin_Hau Pauc", "Proto_Cuneiform Pcun", "Old_Permic Perm", "Phags_Pa Phag",
    "Inscriptional_Pahlavi Phli", "Psalter_Pahlavi Phlp", "Phoenician Phnx", "Miao Plrd",
    "Inscriptional_Parthian Prti", "Rejang Rjng", "Hanifi_Rohingya Rohg", "Runic Runr",
    "Samaritan Samr", "Old_South_Arabian Sarb", "Saurashtra Saur", "Seal", "SignWriting Sgnw",
    "Shavian Shaw", "Sharada Shrd", "Siddham Sidd", "Sidetic Sidt", "Khudawadi Sind",
    "Sinhala Sinh", "Sogdian Sogd", "Old_Sogdian Sogo", "Sora_Sompeng Sora", "Soyombo Soyo",
    "Sundanese Sund", "Sunuwar Sunu", "Syloti_Nagri Sylo", "Syriac Syrc", "Tagbanwa Tagb",
    "Takri Takr", "Tai_Le Tale", "New_Tai_Lue Talu", "Tamil Taml", "Tangut Tang", "Tai_Viet Tavt",
    "Tai_Yo Tayo", "Telugu Telu", "Tifinagh Tfng", "Tagalog Tglg", "Thaana Thaa", "Thai",
    "Tibetan Tibt", "Tirhuta Tirh", "Tangsa Tnsa", "Todhri Todr", "Tolong_Siki Tols", "Toto",
    "Tulu_Tigalari Tutg", "Ugaritic Ugar", "Vai Vaii", "Vithkuqi Vith", "Warang_Citi Wara",
    "Wancho Wcho", "Old_Persian Xpeo", "Cuneiform Xsux", "Yezidi Yezi", "Yi Yiii",
    "Zanabazar_Square Zanb", "Inherited Zinh Qaai", "Common Zyyy", "Unknown Zzzz",
];

/// The values of Grapheme_Cluster_Break.
#[rattlefmt::skip]
pub const GRAPHEME_CLUSTER_BREAKS: [&str; 14] = [
    "Control CN", "CR", "Extend EX", "L", "LF", "LV", "LVT", "Prepend PP", "Regional_Indicator RI",
    "SpacingMark SM", "T", "V", "Other XX", "ZWJ",
];

/// The values of Word_Break.
#[rattlefmt::skip]
pub const WORD_BREAKS: [&str; 19] = [
    "CR", "Double_Quote DQ", "ExtendNumLet EX", "Extend", "Format FO", "Hebrew_Letter HL",
    "Katakana KA", "ALetter LE", "LF", "MidNumLet MB", "MidLetter ML", "MidNum MN", "Newline NL",
    "Numeric NU", "Regional_Indicator RI", "Single_Quote SQ", "WSegSpace", "Other XX", "ZWJ",
];

/// The values of Sentence_Break.
#[rattlefmt::skip]
pub const SENTENCE_BREAKS: [&str; 15] = [
    "ATerm AT", "Close CL", "CR", "Extend EX", "Format FO", "OLetter LE", "LF", "Lower LO",
    "Numeric NU", "SContinue SC", "Sep SE", "Sp", "STerm ST", "Upper UP", "Other XX",
];

/// The values of Line_Break.
#[rattlefmt::skip]
pub const LINE_BREAKS: [&str; 49] = [
    "AI Ambiguous", "AK Aksara", "AL Alphabetic", "AP Aksara_Prebase", "AS Aksara_Start",
    "B2 Break_Both", "BA Break_After", "BB Break_Before", "BK Mandatory_Break",
    "CB Contingent_Break", "CJ Conditional_Japanese_Starter", "CL Close_Punctuation",
    "CM Combining_Mark", "CP Close_Parenthesis", "CR Carriage_Return", "EB E_Base", "EM E_Modifier",
    "EX Exclamation", "GL Glue", "H2", "H3", "HH Unambiguous_Hyphen", "HL Hebrew_Letter",
    "HY Hyphen", "ID Ideographic", "IN Inseparable Inseperable", "IS Infix_Numeric", "JL", "JT",
    "JV", "LF Line_Feed", "NL Next_Line", "NS Nonstarter", "NU Numeric", "OP Open_Punctuation",
    "PO Postfix_Numeric", "PR Prefix_Numeric", "QU Quotation", "RI Regional_Indicator",
    "SA Complex_Context", "SG Surrogate", "SP Space", "SY Break_Symbols", "VF Virama_Final",
    "VI Virama", "WJ Word_Joiner", "XX Unknown", "ZW ZWSpace", "ZWJ",
];

/// The values of East_Asian_Width.
#[rattlefmt::skip]
pub const EAST_ASIAN_WIDTHS: [&str; 6] = [
    "A Ambiguous", "F Fullwidth", "H Halfwidth", "N Neutral", "Na Narrow", "W Wide",
];

/// The values of Indic_Conjunct_Break.
#[rattlefmt::skip]
pub const INDIC_CONJUNCT_BREAKS: [&str; 4] = [
    "Consonant", "Extend", "Linker", "None",
];

/// The values of a property that a code point has or not.
#[rattlefmt::skip]
pub const BINARY_VALUES: [&str; 2] = [
    "No N False F", "Yes Y True T",
];

/// What emoji-data.txt has of Extended_Pictographic: rows of the code points that have it.
#[rattlefmt::skip]
pub const EMOJI_DATA: [&str; 2] = [
    "", "Extended_Pictographic ExtPict",
];

/// The groups of General_Category.
#[rattlefmt::skip]
pub const CATEGORY_GROUPS: [&str; 8] = [
    "LC Cased_Letter", "L Letter", "M Mark Combining_Mark", "N Number", "P Punctuation punct",
    "S Symbol", "Z Separator", "C Other",
];
