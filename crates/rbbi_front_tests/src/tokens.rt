//! The tokens of one text with each kind of token.
use rbbi_lex::{LexErr, TokenKind, lex};

/// A name, an assignment and a rule.
const TEXT: &str = "$a1 = 'it''s'; !!chain;\n^$a1 [b-\\u0063] / \\P{sc=Lu} # a\n.{7};";

/// The short form of a token.
fn kind(token: &TokenKind) -> &str {
    match token {
        TokenKind::Char { bare, .. } => if *bare { "bare" } else { "char" },
        TokenKind::Quoted(word) | TokenKind::Name(word) | TokenKind::Control(word) => word.as_str(),
        TokenKind::Prop { name, .. } => name.as_str(),
        TokenKind::Tag(7) => "7",
        TokenKind::Semi => ";",
        TokenKind::Equals => "=",
        TokenKind::Slash => "/",
        TokenKind::Caret => "^",
        TokenKind::Dot => ".",
        TokenKind::Hyphen => "-",
        TokenKind::SetOpen => "[",
        TokenKind::SetClose => "]",
        _ => "?",
    }
}

/// Each token's short form and its place.
const TOKENS: [(&str, u32); 18] = [
    ("a1", 0),
    ("=", 4),
    ("it's", 6),
    (";", 13),
    ("chain", 15),
    (";", 22),
    ("^", 24),
    ("a1", 25),
    ("[", 29),
    ("bare", 30),
    ("-", 31),
    ("char", 32),
    ("]", 38),
    ("/", 40),
    ("sc", 42),
    (".", 56),
    ("7", 57),
    (";", 60),
];

#[test]
fn tokens(rt: HostRuntime) {
    assert!(rt; TEXT.len() < 100);
    let tokens = lex(rt.alloc(), TEXT).expect(&rt, TEXT);
    assert!(rt; tokens.len() == TOKENS.len());
    for (i, row) in TOKENS.iter().enumerate() {
        assert!(rt; i < tokens.len());
        let token = tokens.get(i);
        assert!(rt;
            kind(&token.kind) == row.0 && token.place == row.1,
            "of {}",
            row.0
        );
    }
    assert!(rt; LexErr::Memory.label() == "Memory" && LexErr::Memory.place().is_none());
}
