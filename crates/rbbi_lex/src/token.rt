//! A token, and the list of the tokens of a rule file.
ghost use Rattle.std.specs.Prelude.{◌≡◌, ◌<◌, List, [], ◌∷◌, ◌++◌, length, slice_get, OnOk, OnErr};

use rbbi_text::Word;
use std::alloc::{AllocError, Global};
use std::marker::Model;

/// What a token is.
#[derive(Drop)]
pub enum TokenKind {
    /// `;`, the end of a statement.
    Semi,
    /// `=`, after a name that is assigned.
    Equals,
    /// `|`, between alternatives.
    Bar,
    /// `/`, between a rule's front and its rest.
    Slash,
    /// `^`, at the start of a rule or of a set.
    Caret,
    /// `*`, any number of times.
    Star,
    /// `+`, once or more.
    Plus,
    /// `?`, once or not at all.
    Quest,
    /// `.`, any character.
    Dot,
    /// `(`, the start of a group.
    ParenOpen,
    /// `)`, the end of a group.
    ParenClose,
    /// `[`, the start of a set.
    SetOpen,
    /// `]`, the end of a set.
    SetClose,
    /// `-`, in a set.
    Hyphen,
    /// `&`, in a set.
    Amp,
    /// A character that stands for itself. It is bare where it is written without a quote or an
    /// escape.
    Char {
        c: char,
        bare: bool,
    },
    /// A quoted sequence, the characters between its quotes.
    Quoted(Word),
    /// A variable, its name without `$`.
    Name(Word),
    /// A control, its name without `!!`.
    Control(Word),
    /// A status number in braces.
    Tag(u32),
    /// A property: its name, and its value where there is one.
    Prop {
        negated: bool,
        name: Word,
        value: Option<Word>,
    },
}

/// A token and its place: that of its first character, in characters from 0.
#[derive(Drop)]
pub struct Token {
    pub kind: TokenKind,
    pub place: u32,
}

/// The tokens of a rule file, from left to right. Contracts see it as their list.
#[derive(Drop)]
pub struct Tokens {
    items: Vec<Token>,
}

impl Model for Tokens {
    ghost use Rattle.std.specs.Prelude.{List};
    ghost use Rattle.rbbi_lex.specs.declared.token.Token.{Token};

    ghost Value = { List Token };

    ghost view = { λ tokens. tokens.items.items };
}

impl Tokens {
    /// No tokens.
    pub fn new(alloc: Global) -> Tokens
        ensures { result ≡ [] }
    {
        Tokens {
            items: Vec::new(alloc),
        }
    }

    /// Adds a token at the end, unless memory runs out.
    pub(crate) fn push(&mut self, token: Token) -> Result<(), AllocError>
        ensures ok { OnOk result (self.new ≡ self.old ++ token ∷ []) }
        ensures err { OnErr result (self.new ≡ self.old) }
    {
        self.items.push(token)?;
        Ok(())
    }

    /// The number of tokens.
    pub fn len(&self) -> usize
        ensures { result ≡ length self.now }
    {
        self.items.len()
    }

    /// The token with this number, from 0.
    pub fn get(&self, i: usize) -> &Token
        requires { i < length self.now }
        ensures { slice_get self.now i ≡ Some result.now }
    {
        &self.items[i]
    }
}
