//! How to write what people often write otherwise.
//!
//! A list has a hint per line: how a spelling begins, a colon and a space, and what helps there.

use crate::source::Position;

/// Where no escape begins.
const ESCAPES: &str = r"\d: A digit is [0-9], or \p{Nd} in all scripts.
\D: What is no digit is [^0-9], or \P{Nd} in all scripts.
\w: A word character is [a-zA-Z0-9_], or [\p{L}\p{M}\p{Nd}_] in all scripts.
\W: What is in no word is [^a-zA-Z0-9_], or [^\p{L}\p{M}\p{Nd}_] in all scripts.
\s: White space is \p{White_Space}.
\S: What is no white space is \P{White_Space}.
\R: A line end is (\r\n | [\n\r\u0085\u2028\u2029]).
\p: The name of a property is in braces, as \p{L}.
\P: The name of a property is in braces, as \P{L}.
\u{: Write \x{..} with one to six hexadecimal digits, as \x{1F600}.
\u: \u takes four hexadecimal digits and no surrogate; \x{..} takes up to six, as \x{1F600}.
\U: \U takes eight hexadecimal digits; \x{..} takes up to six, as \x{1F600}.
\x: \x takes one or two hexadecimal digits; \x{..} takes up to six, as \x{1F600}.
\N: Characters have no names here: write the code, as \u2014.
\c: Write the code of a control character, as \x01.
\0: Codes are hexadecimal, as \x0A.
\1: No group can be referred to: write its part again.
\A: Nothing marks the start of the text: a rule begins where a segment does.
\z: Nothing marks the end of the text: a rule ends where a segment may.
\Z: Nothing marks the end of the text: a rule ends where a segment may.
\Q: Quote it by ', as 'abc'.
\E: Quote it by ', as 'abc'.
\B: Nothing marks the edge of a word: remove \B.
\y: Nothing marks the edge of a word: remove \y.
\G: Nothing marks where a match begins: a rule begins where a segment does.
\K: To cut a match write a look-ahead rule, as a / b;.
\X: Nothing stands for a grapheme cluster; segment --by grapheme breaks into them.
\h: A space or tab is [\p{Zs}\t].
\H: What is no space or tab is [^\p{Zs}\t].
\l: A small letter is \p{Ll}.
\o: Codes are hexadecimal, as \x0A.
\k: No group can be referred to: write its part again.
\g: No group can be referred to: write its part again.
\2: No group can be referred to: write its part again.
\3: No group can be referred to: write its part again.";

/// Where an octal code begins.
const OCTAL: &str = r"Codes are hexadecimal: the octal \101 is \x41.";

/// Where no token begins, from the character before it on.
const AFTER: &str = r"P<: A group has no name: give it one by $name = (a|b);.
?<=: Nothing looks behind. To look ahead write a / b;.
?<!: Nothing looks behind. To look ahead write a / b;.
?:: A group is (a|b), with no ? at its start.
?<: A group is (a|b), with no ? at its start. To look ahead write a / b;.
?!: A group is (a|b), with no ? at its start. To look ahead write a / b;.";

/// Where no token begins. A `{` is here only in a set.
const CHARACTERS: &str = r#"": Quote it by ', as 'abc'. The character is \".
`: Quote it by ', as 'abc'. The character is \`.
:=: An assignment is $name = EXPRESSION;.
::=: An assignment is $name = EXPRESSION;.
->: An assignment is $name = EXPRESSION;.
--: A comment begins with #. The character is \-.
-: A range stands in a set, as [a-z], and no name has a hyphen. The character is \-.
&: Sets are intersected in a set, as [[a-z]&[aeiou]]. The character is \&.
]: This ] closes no [. The character is \].
{bof}: For [$X{bof}] $R; write two rules, $X $R; and ^$R;.
{eof}: Nothing marks the end of the text: remove {eof}.
{: Sets have no strings here: for [c{ab}] write ([c] | 'ab'). The character is \{.
}: This } closes no {. The character is \}.
!: A control begins with !!, as !!chain;. The character is \!.
_: A name begins with $, as $a_b. The character is \_.
,: Parts stand side by side, or | separates them. The character is \,."#;

/// Where no name follows.
const NAMES: &str = r"$;: Nothing marks the end of the text: remove the $. The character is \$.
$ ;: Nothing marks the end of the text: remove the $. The character is \$.
$): Nothing marks the end of the text: remove the $. The character is \$.
$|: Nothing marks the end of the text: remove the $. The character is \$.
$]: In a set $ begins a name, as [$letter]. The character is \$.
${: A name has no braces, as $name.
$[: A $ begins a name. The character is \$.
$ : No space stands between $ and its name, as in $name.
!! : No space stands between !! and its word, as in !!chain.";

/// Where braces hold no status.
const TAGS: &str = r"{bof}: For [$X{bof}] $R; write two rules, $X $R; and ^$R;.
{eof}: Nothing marks the end of the text: remove {eof}.";

/// Where a range begins with the greater character.
const RANGES: &str = r"a-Z: Capitals come first in ASCII: write [a-zA-Z].
a-9: Digits come before letters in ASCII: write [a-z0-9].
A-9: Digits come before letters in ASCII: write [A-Z0-9].";

/// Where a set is empty.
const SETS: &str = r"[ ]: White space is ignored in sets; with a backslash it isn't, as in [\ ].
[]: A set has at least one character, as [a-z].";

/// Where a token can't follow, from the character before it on.
const PAIRS: &str = r"(?i: Nothing ignores case: write both cases, as [aA]; remove (?i).
(?s: A . is any character, a line end too: remove (?s).
(?m: A ^ marks no start of a line: remove (?m).
(?x: White space is ignored: remove (?x).
(?: A group is (a|b), with no ? at its start. To look ahead write a / b;.
&&: One & intersects sets, as [[a-z]&[aeiou]].
--: One - takes a set away, as [[a-z]-[aeiou]].
-[: A - after a character or a range takes nothing away: write [[a-z]-[aeiou]].
-: A - after a range or a set takes a set away, as [[a-z]-[a]]. The character is \-.
&: Sets are intersected, as [[a-z]&[aeiou]]. The character is \&.
}: One status stands at the end of a rule, right before its ;.";

/// Where a token can't follow.
const TOKENS: &str = r"//: A comment begins with #.
/*: A comment begins with #.
/: A / stands once in a rule, in no group, and with no | outside of groups.
;: A part is missing before this ;.
): This ) closes no (, or a part is missing before it. The character is \).
|: Each side of a | has a part, and in a rule with a / it stands in a group, as a / (b|c).
*: A repeat follows a part that has none; group to repeat again, as (a+)*.
+: A repeat follows a part that has none; group to repeat again, as (a*)+.
?: A repeat follows a part that has none; group to repeat again, as (a+)?.
^: A ^ stands at the start of a rule or of a set. The character is \^.
-: A - stands between characters, as a-z, or sets, as [[a-z]-[a]]. The character is \-.
&: Sets are intersected, as [[a-z]&[aeiou]]. The character is \&.
]: The end of a range or a set is missing before this ].
{: A status stands at the end of a rule. An assignment has none.
=: An assignment is $name = EXPRESSION;, with a $. The character is \=.";

/// Classes of POSIX and of other languages that are no properties.
const CLASSES: &str = r"alnum: alnum is [\p{Alphabetic}\p{Nd}], or [a-zA-Z0-9] in ASCII.
blank: blank is [\p{Zs}\t].
xdigit: xdigit is [0-9A-Fa-f].
graph: graph is [^\p{White_Space}\p{Cc}\p{Cn}].
print: print is [^\p{Cc}\p{Cn}\p{Zl}\p{Zp}].
word: word is [\p{Alphabetic}\p{M}\p{Nd}\p{Pc}], or [a-zA-Z0-9_] in ASCII.";

/// Where a colon stands before a value.
const COLON: &str = r"A value follows a =, as \p{WB=ALetter}.";

/// Where a file has comments alone.
const COMMENTS: &str =
    r"Each line is a comment, since # begins one; the character is \#. A rule is an expression and ;, as [a-z]+;.";

/// Where a file is empty.
const EMPTY: &str = "The file is empty. A rule is an expression and ;, as [a-z]+;.";

/// Whether a spelling begins at a place, or, with `before`, at the character before it.
fn begins_at(position: &Position<'_>, spelling: &str, before: bool) -> bool {
    if !before {
        return position.rest.starts_with(spelling);
    }
    let mut pair = spelling.chars();
    pair.next() == position.last && position.rest.starts_with(pair.as_str())
}

/// The first hint of a list whose spelling begins there.
fn first(hints: &'static str, position: &Position<'_>, before: bool) -> Option<&'static str> {
    for line in hints.lines() {
        if let Some((spelling, help)) = line.split_once(": ")
            && begins_at(position, spelling, before)
        {
            return Some(help);
        }
    }
    None
}

/// Whether an octal code begins a text: a backslash and three digits up to 7.
fn begins_octal(text: &str) -> bool {
    let digits = text.chars().skip(1).take(3);
    text.starts_with('\\') && digits.filter(|c| matches!(*c, '0'..='7')).count() == 3
}

/// What helps where no escape begins.
fn escape_help(position: &Position<'_>) -> Option<&'static str> {
    if begins_octal(position.rest) {
        return Some(OCTAL);
    }
    first(ESCAPES, position, false)
}

/// What stands between the signs of the property that begins a text.
fn body_of(text: &str) -> Option<&str> {
    let (body, end) = match text.strip_prefix("[:") {
        Some(body) => (body, ":]"),
        None => (
            text.strip_prefix("\\p{").or(text.strip_prefix("\\P{"))?,
            "}",
        ),
    };
    match body.split_once(end) {
        Some((body, _)) => Some(body.strip_prefix('^').unwrap_or(body)),
        None => None,
    }
}

/// What helps with a property at a place that other languages have.
pub(crate) fn class_help(position: &Position<'_>) -> Option<&'static str> {
    let name = body_of(position.rest)?;
    if name.contains(':') {
        return Some(COLON);
    }
    for line in CLASSES.lines() {
        if let Some((class, help)) = line.split_once(": ")
            && name.eq_ignore_ascii_case(class)
        {
            return Some(help);
        }
    }
    None
}

/// What helps with a file that has no rule, if it has comments alone or is empty.
pub(crate) fn no_rules_help(text: &str) -> Option<&'static str> {
    let mut has_comment = false;
    for line in text.lines() {
        let line = line.trim();
        if line.starts_with('#') {
            has_comment = true;
        } else if !line.is_empty() {
            return None;
        }
    }
    Some(if has_comment { COMMENTS } else { EMPTY })
}

/// What helps at a place with a fault of this label, if what stands there is known.
pub(crate) fn help_at(label: &str, position: &Position<'_>) -> Option<&'static str> {
    match label {
        "BadEscape" => escape_help(position),
        "BadChar" => first(AFTER, position, true).or(first(CHARACTERS, position, false)),
        "BadName" => first(NAMES, position, false),
        "BadTag" => first(TAGS, position, false),
        "BadRange" => first(RANGES, position, false),
        "EmptySet" => first(SETS, position, false),
        "Syntax" => first(PAIRS, position, true).or(first(TOKENS, position, false)),
        _ => None,
    }
}
