//! From the tokens of a rule file to its statements.
ghost use Rattle.std.specs.Prelude.{◌≡◌, ◌<◌, None, IfOk, IfErr};
ghost use Rattle.rbbi_lex.specs.Places.{PlacesRise};
ghost use Rattle.rbbi_tree.specs.Grammar.{IsFile};
ghost use Rattle.rbbi_tree.specs.Values.{statement_trees};
ghost use Rattle.rbbi_tree.specs.Brackets.{IsShallow, open_after};
ghost use Rattle.rbbi_tree.specs.Refusals.{IsRefusalOf};
ghost use Rattle.rbbi_lex.specs.WellMade as lex;
ghost use Rattle.rbbi_tree.specs.WellMade.{AreWellMade};

use crate::error::TreeErr;
use crate::parser::Parser;
use crate::syntax::Statements;
use rbbi_lex::{TokenKind, Tokens};
use std::alloc::Global;

/// The most brackets, round and square, that may be open at once.
const DEEPEST: u32 = 64;

/// How many brackets are open after a token, where so many were open before it.
fn count_open(kind: &TokenKind, before: u32) -> u32
    requires { before < 1000 }
    ensures { result ≡ open_after kind.now before }
{
    match kind {
        TokenKind::ParenOpen | TokenKind::SetOpen => before + 1,
        TokenKind::ParenClose | TokenKind::SetClose => before.saturating_sub(1),
        _ => before,
    }
}

/// The statements of a rule file, from its tokens. `end` is the length of the text, in characters.
///
/// A file is any number of statements (ICU User Guide, "Break Rules"). A statement is a `;`; a
/// control and a `;`; a name, `=`, an expression and a `;`; or a rule and a `;`. A rule is perhaps
/// a `^`, an expression or two sequences with `/` between them, and perhaps a tag. An expression is
/// one sequence, or several with `|` between them; a sequence is one item or more; and an item is
/// an atom and at most one of `*`, `+` and `?`. An atom is a character, a quoted sequence, `.`, a
/// name, a property, a set, or an expression in round brackets.
///
/// A set is its parts in square brackets, the complement of them with a `^` first. A part is a
/// character, two with `-` between them, or an operand: a name, a property or a set. After an
/// operand, `&` or `-` joins another. A `-` right after the opening or right before the end stands
/// for itself.
///
/// Refuses `Syntax` where the tokens are no file. Its place is that of the first token after which
/// no file can follow, or `end` where all tokens begin one. Refuses `TooDeep` at the first bracket
/// that makes 65 open ones. Of the two the one of lesser place comes, at one place `Syntax`.
pub fn parse(alloc: Global, tokens: &Tokens, end: u32) -> Result<Statements, TreeErr>
    requires places { PlacesRise 0 end tokens.now }
    requires well_made { lex.AreWellMadeTokens tokens.now }
    ensures parsed { IfOk result (λ statements. IsFile tokens.now (statement_trees statements)) }
    ensures well_made { IfOk result (λ statements. AreWellMade (statement_trees statements)) }
    ensures shallow { IfOk result (λ _. IsShallow tokens.now) }
    ensures refused { IfErr result (λ refusal. IsRefusalOf tokens.now end refusal) }
{
    let mut parser = Parser::new(alloc);
    let mut depth = 0;
    for i in 0..tokens.len() {
        let token = tokens.get(i);
        parser.read(alloc, token)?;
        depth = count_open(&token.kind, depth);
        if depth > DEEPEST {
            return Err(TreeErr::TooDeep(token.place));
        }
    }
    if !parser.is_between() {
        return Err(TreeErr::Syntax(end));
    }
    Ok(parser.into_statements())
}
