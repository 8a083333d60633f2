//! The tokens of a whole text.
ghost use Rattle.std.specs.Prelude.{◌≡◌, ◌≤◌, vec_len, length, MatchResult, IfOk};
ghost use Rattle.std.specs.Str.{chars};
ghost use Rattle.rbbi_text.specs.Bytes.{most_bytes};
ghost use Rattle.rbbi_lex.specs.Lexing.{AreTokens};
ghost use Rattle.rbbi_lex.specs.Errors.{TellsFault};
ghost use Rattle.rbbi_lex.specs.Places.{PlacesRise};
ghost use Rattle.rbbi_lex.specs.WellMade.{AreWellMadeTokens};

use crate::error::LexErr;
use crate::lexer::Lexer;
use crate::state::State;
use crate::token::Tokens;
use std::alloc::{AllocError, Global};

/// The characters of a text, which are at most as many as its bytes.
fn characters_of(alloc: Global, text: &str) -> Result<Vec<char>, AllocError>
    ensures characters { IfOk result (λ v. v.items ≡ chars text.now) }
    ensures short { IfOk result (λ v. vec_len v ≤ length text.now) }
{
    text.chars().collect(alloc)
}

/// The tokens of a rule file, with their places in characters from 0 (ICU User Guide, "Break
/// Rules"). The text has at most 100,663,296 bytes.
///
/// At each place the first case that fits decides, inside of sets by a table of their own. Refuses
/// the first place at which it spells no token: `BadEscape` at a `\` that begins no escape,
/// `OpenQuote` at the quote and `OpenProperty` at the `\p`, `\P` or `[:` that isn't closed in its
/// line, `BadTag` at a `{` that begins no status number up to 2,147,483,647, `BadName` at a `$` or
/// `!!` that no name follows, and `BadChar` at a character that begins nothing. `Memory`
/// doesn't depend on the text.
pub fn lex(alloc: Global, text: &str) -> Result<Tokens, LexErr>
    requires { length text.now ≤ most_bytes }
    ensures exact { MatchResult result (AreTokens (chars text.now)) (TellsFault (chars text.now)) }
    ensures places { IfOk result (PlacesRise 0 (length (chars text.now))) }
    ensures well_made { IfOk result AreWellMadeTokens }
{
    let mut tokens = Tokens::new(alloc);
    let mut lexer = Lexer {
        characters: characters_of(alloc, text)?,
        place: 0,
        state: State { depth: 0 },
    };
    while let Some(token) = lexer.next_token(alloc)? {
        tokens.push(token)?;
    }
    Ok(tokens)
}
