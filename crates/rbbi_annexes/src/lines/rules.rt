//! The rules LB4 to LB31, on what stands before and after a place.

ghost use Rattle.std.specs.Prelude.{◌≡◌};
ghost use Rattle.rbbi_annexes.specs.LineBreaks.{joins_glue, joins_over_spaces, joins_after_spaces};
ghost use Rattle.rbbi_annexes.specs.LineBreaks.{joins_quote, joins_hyphen, joins_number};
ghost use Rattle.rbbi_annexes.specs.LineBreaks.{joins_syllable, joins_letter};
ghost use Rattle.rbbi_annexes.specs.LineBreaks.{by_rules, by_later_rules};

use super::items::{
    Item, is, is_absent, is_aksara, is_aksara_or_circle, is_east_asian, is_final_quote,
    is_initial_quote, is_reserved, one_of, takes_marks,
};
use ucd_breaks::LineBreak::{
    AksaraPrebase as AP, Alphabetic as AL, BreakAfter as BA, BreakBefore as BB, BreakBoth as B2,
    BreakSymbols as SY, CarriageReturn as CR, CloseParenthesis as CP, ClosePunctuation as CL,
    CombiningMark as CM, ContingentBreak as CB, EBase as EB, EModifier as EM, Exclamation as EX,
    Glue as GL, H2, H3, HebrewLetter as HL, Hyphen as HY, Ideographic as ID, InfixNumeric as IS,
    Inseparable as IN, Jl as JL, Jt as JT, Jv as JV, LineFeed as LF, MandatoryBreak as BK,
    NextLine as NL, Nonstarter as NS, Numeric as NU, OpenPunctuation as OP, PostfixNumeric as PO,
    PrefixNumeric as PR, Quotation as QU, RegionalIndicator as RI, Space as SP,
    UnambiguousHyphen as HH, Virama as VI, ViramaFinal as VF, WordJoiner as WJ, ZWSpace as ZW,
    Zwj as ZWJ,
};

/// Whether a line is broken at a place.
#[derive(Clone, Copy, PartialEq, Eq)]
pub enum Verdict {
    MustBreak,
    MayBreak,
    NoBreak,
}

/// What the rules read of the characters before a place: items, counted away from the place.
#[derive(Clone, Copy, PartialEq, Eq)]
pub struct Left {
    pub first: Option<Item>,
    pub second: Option<Item>,
    /// The first item that isn't a space.
    pub held: Option<Item>,
    /// The item before `held`.
    pub before_held: Option<Item>,
    /// The last character is a ZWJ.
    pub joiner: bool,
    /// A number stands here, with SY and IS after it.
    pub number: bool,
    /// The same with a CL or CP after it.
    pub closed_number: bool,
    /// The items end in an odd number of RI.
    pub half_flag: bool,
}

/// What the rules read of the characters after a place: items, counted away from the place.
#[derive(Clone, Copy, PartialEq, Eq)]
pub struct Right {
    /// The next character is CM or ZWJ.
    pub mark: bool,
    pub first: Option<Item>,
    pub second: Option<Item>,
    pub third: Option<Item>,
}

pub(super) fn joins_glue(l: &Left, r: &Right) -> bool
    ensures { result ≡ joins_glue l.now r.now }
{
    l.joiner
        | r.mark & takes_marks(l.first)
        | is(WJ, r.first)
        | is(WJ, l.first)
        | is(GL, l.first)
        | !one_of(&[SP, BA, HY, HH], l.first) & is(GL, r.first)
        | one_of(&[CL, CP, EX, SY], r.first)
}

pub(super) fn joins_over_spaces(l: &Left, r: &Right) -> bool
    ensures { result ≡ joins_over_spaces l.now r.now }
{
    let before = [BK, CR, LF, NL, OP, QU, GL, SP, ZW];
    let after = [SP, GL, WJ, CL, QU, CP, EX, IS, SY, BK, CR, LF, NL, ZW];
    is(OP, l.held)
        | is_initial_quote(l.held) & (is_absent(l.before_held) | one_of(&before, l.before_held))
        | is_final_quote(r.first) & (is_absent(r.second) | one_of(&after, r.second))
}

pub(super) fn joins_after_spaces(l: &Left, r: &Right) -> bool
    ensures { result ≡ joins_after_spaces l.now r.now }
{
    is(IS, r.first) | one_of(&[CL, CP], l.held) & is(NS, r.first) | is(B2, l.held) & is(B2, r.first)
}

pub(super) fn joins_quote(l: &Left, r: &Right) -> bool
    ensures { result ≡ joins_quote l.now r.now }
{
    is(QU, r.first) & !is_initial_quote(r.first)
        | is(QU, l.first) & !is_final_quote(l.first)
        | !is_east_asian(l.first) & is(QU, r.first)
        | is(QU, r.first) & !is_east_asian(r.second)
        | is(QU, l.first) & !is_east_asian(r.first)
        | !is_east_asian(l.second) & is(QU, l.first)
}

pub(super) fn joins_hyphen(l: &Left, r: &Right) -> bool
    ensures { result ≡ joins_hyphen l.now r.now }
{
    (is_absent(l.second) | one_of(&[BK, CR, LF, NL, SP, ZW, CB, GL], l.second))
        & one_of(&[HY, HH], l.first)
        & one_of(&[AL, HL], r.first)
        | one_of(&[BA, HH, HY, NS], r.first)
        | is(BB, l.first)
        | is(HL, l.second) & one_of(&[HY, HH], l.first) & !is(HL, r.first)
        | is(SY, l.first) & is(HL, r.first)
        | is(IN, r.first)
}

pub(super) fn joins_number(l: &Left, r: &Right) -> bool
    ensures { result ≡ joins_number l.now r.now }
{
    one_of(&[AL, HL], l.first) & is(NU, r.first)
        | is(NU, l.first) & one_of(&[AL, HL], r.first)
        | is(PR, l.first) & one_of(&[ID, EB, EM], r.first)
        | one_of(&[ID, EB, EM], l.first) & is(PO, r.first)
        | one_of(&[PR, PO], l.first) & one_of(&[AL, HL], r.first)
        | one_of(&[AL, HL], l.first) & one_of(&[PR, PO], r.first)
        | (l.closed_number | l.number) & one_of(&[PO, PR], r.first)
        | one_of(&[PO, PR], l.first)
            & is(OP, r.first)
            & (is(NU, r.second) | is(IS, r.second) & is(NU, r.third))
        | one_of(&[PO, PR, HY, IS], l.first) & is(NU, r.first)
        | l.number & is(NU, r.first)
}

pub(super) fn joins_syllable(l: &Left, r: &Right) -> bool
    ensures { result ≡ joins_syllable l.now r.now }
{
    is(JL, l.first) & one_of(&[JL, JV, H2, H3], r.first)
        | one_of(&[JV, H2], l.first) & one_of(&[JV, JT], r.first)
        | one_of(&[JT, H3], l.first) & is(JT, r.first)
        | one_of(&[JL, JV, JT, H2, H3], l.first) & is(PO, r.first)
        | is(PR, l.first) & one_of(&[JL, JV, JT, H2, H3], r.first)
        | one_of(&[AL, HL], l.first) & one_of(&[AL, HL], r.first)
        | is(AP, l.first) & is_aksara(r.first)
        | is_aksara(l.first) & one_of(&[VF, VI], r.first)
        | is_aksara(l.second) & is(VI, l.first) & is_aksara_or_circle(r.first)
        | is_aksara(l.first) & is_aksara(r.first) & is(VF, r.second)
}

pub(super) fn joins_letter(l: &Left, r: &Right) -> bool
    ensures { result ≡ joins_letter l.now r.now }
{
    is(IS, l.first) & one_of(&[AL, HL], r.first)
        | one_of(&[AL, HL, NU], l.first) & is(OP, r.first) & !is_east_asian(r.first)
        | is(CP, l.first) & !is_east_asian(l.first) & one_of(&[AL, HL, NU], r.first)
        | l.half_flag & is(RI, r.first)
        | (is(EB, l.first) | is_reserved(l.first)) & is(EM, r.first)
}

/// What the first rule that applies says of a place.
#[tactic(auto, unfolding(crate::specs::LineBreaks::by_rules))]
pub fn by_rules(l: &Left, r: &Right) -> Verdict
    ensures { result ≡ by_rules l.now r.now }
{
    if is(BK, l.first) {
        Verdict::MustBreak
    } else if is(CR, l.first) & is(LF, r.first) {
        Verdict::NoBreak
    } else if one_of(&[CR, LF, NL], l.first) {
        Verdict::MustBreak
    } else if one_of(&[BK, CR, LF, NL, SP, ZW], r.first) {
        Verdict::NoBreak
    } else if is(ZW, l.held) {
        Verdict::MayBreak
    } else if joins_glue(l, r) | joins_over_spaces(l, r) {
        Verdict::NoBreak
    } else if is(SP, l.first) & is(IS, r.first) & is(NU, r.second) {
        Verdict::MayBreak
    } else {
        by_later_rules(l, r)
    }
}

/// The same from LB15d on.
#[tactic(auto, unfolding(crate::specs::LineBreaks::by_later_rules))]
pub(super) fn by_later_rules(l: &Left, r: &Right) -> Verdict
    ensures { result ≡ by_later_rules l.now r.now }
{
    if joins_after_spaces(l, r) {
        Verdict::NoBreak
    } else if is(SP, l.first) {
        Verdict::MayBreak
    } else if joins_quote(l, r) {
        Verdict::NoBreak
    } else if is(CB, r.first) | is(CB, l.first) {
        Verdict::MayBreak
    } else if joins_hyphen(l, r) | joins_number(l, r) | joins_syllable(l, r) | joins_letter(l, r) {
        Verdict::NoBreak
    } else {
        Verdict::MayBreak
    }
}
