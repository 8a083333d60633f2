//! The tokens of the rule language.
//!
//! A rule file is cut into tokens by two tables of cases, one outside and one inside of sets (ICU
//! User Guide, "Break Rules"; UTS #18, "Unicode Regular Expressions", for escapes and properties):
//! at each point white space and comments are skipped, and the first case that fits decides.
#![tactic(auto)]

mod case;
mod character;
mod error;
mod escape;
mod laws;
mod lexer;
mod name;
mod property;
mod quotation;
mod sign;
mod spell;
mod spelled;
mod state;
mod stretch;
mod tag;
mod text;
mod token;
mod words;

pub use error::LexErr;
pub use laws::{
    faults_are_unique, places_rise, stretches_are_longest, tokens_are_unique,
    tokens_exclude_faults, tokens_or_fault,
};
pub use text::lex;
pub use token::{Token, TokenKind, Tokens};
