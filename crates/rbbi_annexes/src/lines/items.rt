//! Items: characters with the marks that count as a part of them, and what the rules ask of one.
//!
//! `&` and `|` stand for `&&` and `||`, so that each condition is one value.

ghost use Rattle.std.specs.Prelude.{◌≡◌, is_none};
ghost use Rattle.ucd_category.specs.GeneralCategory.{general_category_eq};
ghost use Rattle.rbbi_annexes.specs.LineBreaks.{resolved, is_wide, item_of, is, one_of, alone};
ghost use Rattle.rbbi_annexes.specs.LineBreaks.{is_initial_quote, is_final_quote, is_east_asian};
ghost use Rattle.rbbi_annexes.specs.LineBreaks.{is_reserved, is_aksara_or_circle, is_aksara};
ghost use Rattle.rbbi_annexes.specs.LineBreaks.{is_mark, takes_marks};

use ucd_breaks::LineBreak;
use ucd_breaks::LineBreak::{
    Aksara as AK, AksaraStart as AS, Alphabetic as AL, Ambiguous as AI, CarriageReturn as CR,
    CombiningMark as CM, ComplexContext as SA, ConditionalJapaneseStarter as CJ, LineFeed as LF,
    MandatoryBreak as BK, NextLine as NL, Nonstarter as NS, Quotation as QU, Space as SP,
    Surrogate as SG, Unknown as XX, ZWSpace as ZW, Zwj as ZWJ,
};
use ucd_category::GeneralCategory;
use ucd_category::GeneralCategory::{
    FinalPunctuation, InitialPunctuation, NonspacingMark, SpacingMark, Unassigned,
};
use ucd_east_asian::EastAsianWidth;
use ucd_east_asian::EastAsianWidth::{Fullwidth, Halfwidth, Wide};

/// What the rules read of a character, or of one with its marks.
#[derive(Clone, Copy, PartialEq, Eq)]
pub struct Item {
    /// The class, by LB1.
    pub class: LineBreak,
    /// East_Asian_Width is F, W or H.
    pub is_east_asian: bool,
    /// General_Category is Pi.
    pub is_initial: bool,
    /// General_Category is Pf.
    pub is_final: bool,
    /// U+25CC.
    pub is_circle: bool,
    /// Extended_Pictographic, and not assigned.
    pub is_reserved: bool,
}

pub(super) fn resolved(class: LineBreak, of: GeneralCategory) -> LineBreak
    ensures { result ≡ resolved class of }
{
    match class {
        AI | SG | XX => AL,
        SA if of == NonspacingMark || of == SpacingMark => CM,
        SA => AL,
        CJ => NS,
        _ => class,
    }
}

pub(super) fn is_wide(width: EastAsianWidth) -> bool
    ensures { result ≡ is_wide width }
{
    width == Fullwidth || width == Wide || width == Halfwidth
}

pub(super) fn is_category(of: GeneralCategory, other: GeneralCategory) -> bool
    ensures { result ≡ general_category_eq of other }
{
    of.number() == other.number()
}

pub(super) fn item_of(c: char) -> Item
    ensures { result ≡ item_of c }
{
    let of = GeneralCategory::for_char(c);
    Item {
        class: resolved(LineBreak::for_char(c), of),
        is_east_asian: is_wide(EastAsianWidth::for_char(c)),
        is_initial: is_category(of, InitialPunctuation),
        is_final: is_category(of, FinalPunctuation),
        is_circle: c == '\u{25CC}',
        is_reserved: ucd_emoji::is_extended_pictographic(c) & is_category(of, Unassigned),
    }
}

#[tactic(auto, unfolding(crate::specs::LineBreaks::is))]
pub(super) fn is(class: LineBreak, item: Option<Item>) -> bool
    ensures { result ≡ is class item }
{
    match item {
        None => false,
        Some(item) => item.class.number() == class.number(),
    }
}

#[tactic(auto, using(crate::proofs::LineTexts::one_of_none, crate::proofs::LineTexts::one_of_more))]
pub(super) fn one_of(classes: &[LineBreak], item: Option<Item>) -> bool
    ensures { result ≡ one_of classes.now item }
{
    let mut rest = classes;
    while let Some((class, further)) = rest.split_first() {
        if is(*class, item) {
            return true;
        }
        rest = further;
    }
    false
}

pub(super) fn is_absent(item: Option<Item>) -> bool
    ensures { result ≡ is_none item }
{
    match item {
        None => true,
        Some(_) => false,
    }
}

pub(super) fn is_initial_quote(item: Option<Item>) -> bool
    ensures { result ≡ is_initial_quote item }
{
    match item {
        None => false,
        Some(item) => item.class == QU && item.is_initial,
    }
}

pub(super) fn is_final_quote(item: Option<Item>) -> bool
    ensures { result ≡ is_final_quote item }
{
    match item {
        None => false,
        Some(item) => item.class == QU && item.is_final,
    }
}

pub(super) fn is_east_asian(item: Option<Item>) -> bool
    ensures { result ≡ is_east_asian item }
{
    match item {
        None => false,
        Some(item) => item.is_east_asian,
    }
}

pub(super) fn is_reserved(item: Option<Item>) -> bool
    ensures { result ≡ is_reserved item }
{
    match item {
        None => false,
        Some(item) => item.is_reserved,
    }
}

pub(super) fn is_aksara_or_circle(item: Option<Item>) -> bool
    ensures { result ≡ is_aksara_or_circle item }
{
    match item {
        None => false,
        Some(item) => item.class == AK || item.is_circle,
    }
}

pub(super) fn is_aksara(item: Option<Item>) -> bool
    ensures { result ≡ is_aksara item }
{
    is_aksara_or_circle(item) | is(AS, item)
}

pub(super) fn is_mark(item: Item) -> bool
    ensures { result ≡ is_mark item }
{
    is(CM, Some(item)) | is(ZWJ, Some(item))
}

pub(super) fn takes_marks(item: Option<Item>) -> bool
    ensures { result ≡ takes_marks item }
{
    !(is_absent(item) | one_of(&[BK, CR, LF, NL, SP, ZW], item))
}

pub(super) fn alone(item: Item) -> Item
    ensures { result ≡ alone item }
{
    if is_mark(item) { item_of('A') } else { item }
}
