//! A token as a case of the table spells it.
use crate::token::TokenKind;
use std::alloc::AllocError;

/// What a case of the table spells, and the place after it.
#[derive(Drop)]
pub(crate) struct Spelled {
    pub kind: TokenKind,
    pub end: usize,
}

/// What a case spells, if it spells a token, unless memory runs out.
pub(crate) type Spelling = Result<Option<Spelled>, AllocError>;
