//! Characters that are tokens by themselves.
ghost use Rattle.std.specs.Prelude.{◌≡◌};
ghost use Rattle.rbbi_lex.specs.Cases.{outer_sign, inner_sign};

use crate::token::TokenKind;

/// The token that a character is by itself outside of sets, if it is one.
#[tactic(auto, unfolding(crate::specs::Cases::outer_sign))]
pub(crate) fn outer_sign(c: char) -> Option<TokenKind>
    ensures { result ≡ outer_sign c }
{
    match c {
        ';' => Some(TokenKind::Semi),
        '=' => Some(TokenKind::Equals),
        '|' => Some(TokenKind::Bar),
        '/' => Some(TokenKind::Slash),
        '^' => Some(TokenKind::Caret),
        '*' => Some(TokenKind::Star),
        '+' => Some(TokenKind::Plus),
        '?' => Some(TokenKind::Quest),
        '.' => Some(TokenKind::Dot),
        '(' => Some(TokenKind::ParenOpen),
        ')' => Some(TokenKind::ParenClose),
        _ => None,
    }
}

/// The token that a character is by itself inside of sets, if it is one.
#[tactic(auto, unfolding(crate::specs::Cases::inner_sign))]
pub(crate) fn inner_sign(c: char) -> Option<TokenKind>
    ensures { result ≡ inner_sign c }
{
    match c {
        ']' => Some(TokenKind::SetClose),
        '^' => Some(TokenKind::Caret),
        '-' => Some(TokenKind::Hyphen),
        '&' => Some(TokenKind::Amp),
        _ => None,
    }
}
