//! The abbreviations that are built in, after which a sentence goes on.
//!
//! They are common ones after which a name, a number or other text follows nearly always. Those
//! that often end a sentence aren't among them, as etc., Jr., p.m. and usw., nor are those that are
//! words too, as No. for number.

use crate::escapes::append_plain;
use rbbi_text::append;
use std::alloc::{AllocError, Global};

/// A language whose abbreviations are built in.
#[derive(Clone, Copy)]
pub(crate) enum Language {
    English,
    German,
}

/// English abbreviations, beside initials.
static ENGLISH: [&str; 66] = [
    "Adm.", "Capt.", "Cmdr.", "Col.", "Cpl.", "Dr.", "Drs.", "Fr.", "Gen.", "Gov.", "Hon.", "Lt.",
    "Maj.", "Messrs.", "Mr.", "Mrs.", "Ms.", "Msgr.", "Pres.", "Prof.", "Profs.", "Rep.", "Rev.",
    "Sen.", "Sgt.", "St.", "Sts.", "Supt.", "Ft.", "Mt.", "Jan.", "Feb.", "Apr.", "Aug.", "Sept.",
    "Oct.", "Nov.", "Dec.", "cf.", "e.g.", "e. g.", "i.e.", "i. e.", "viz.", "vs.", "v.", "c.",
    "ca.", "approx.", "p.", "pp.", "Ch.", "Chap.", "Eq.", "Eqs.", "Fig.", "Figs.", "Nos.", "Sec.",
    "Sect.", "Vol.", "Vols.", "ch.", "fig.", "vol.", "vols.",
];

/// German abbreviations, beside initials.
static GERMAN: [&str; 61] = [
    "Dr.", "Dres.", "Fr.", "Frl.", "Hr.", "Hrn.", "Prof.", "St.", "Feb.", "Mrz.", "Apr.", "Jun.",
    "Jul.", "Aug.", "Sept.", "Okt.", "Nov.", "Dez.", "Abb.", "Abs.", "Bd.", "Bde.", "Hrsg.",
    "Kap.", "Nr.", "Nrn.", "Tab.", "Ziff.", "bzw.", "ca.", "d.", "d. h.", "d.h.", "evtl.", "geb.",
    "gegr.", "gest.", "ggf.", "i.", "i. d.", "i. d. R.", "i.d.", "inkl.", "exkl.", "max.", "mind.",
    "o.", "s.", "sog.", "u.", "u. a.", "u.a.", "v.", "v. a.", "v.a.", "vgl.", "z.", "z. B.",
    "z.B.", "z. T.", "z.T.",
];

/// Initials of names. "I" is also a word.
static INITIALS: &str = "ABCDEFGHJKLMNOPQRSTUVWXYZ";

/// Appends the initials, one per line.
fn append_initials(out: &mut Vec<u8>) -> Result<(), AllocError> {
    for initial in INITIALS.chars() {
        append_plain(initial, out)?;
        append(b".\n", out)?;
    }
    Ok(())
}

/// The abbreviations of a language, as a file that lists them, one per line.
pub(crate) fn abbreviations(alloc: Global, language: Language) -> Result<Vec<u8>, AllocError> {
    let list: &[&str] = match language {
        Language::English => &ENGLISH,
        Language::German => &GERMAN,
    };
    let mut file = Vec::new(alloc);
    append_initials(&mut file)?;
    for abbreviation in list {
        append(abbreviation.as_bytes(), &mut file)?;
        append(b"\n", &mut file)?;
    }
    Ok(file)
}
