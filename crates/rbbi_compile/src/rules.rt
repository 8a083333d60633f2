//! From a rule file to its text and its rules.
ghost use Rattle.std.specs.Prelude.{◌≡◌, ◌≤◌, ◌⊎◌, Bool, List, length, IfOk, IfErr, IsUtf8};
ghost use Rattle.std.specs.Str.{chars};
ghost use Rattle.rbbi_model.specs.Rules.{AreLawful};
ghost use Rattle.rbbi_text.specs.Bytes.{most_bytes, IsNotUtf8At};
ghost use Rattle.rbbi_tree.specs.Values.{statement_trees};
ghost use Rattle.rbbi_tree.specs.WellMade.{AreWellMade};
ghost use Rattle.rbbi_props.specs.Rows.{File};
ghost use Rattle.rbbi_resolve.specs.RuleLists.{rules_of};
ghost use Rattle.rbbi_compile.specs.Rules.{text_of, HasStatements, MeansRules, HasRuleFault};

use crate::error::CompileErr;
use rbbi_props::PropTable;
use rbbi_resolve::{Rules, resolve};
use rbbi_text::{count_characters, utf8_text, without_mark};
use rbbi_tree::{Statements, parse};
use std::alloc::Global;

/// The text that the bytes of a rule file spell in UTF-8, without one U+FEFF at its start.
///
/// Refuses bytes that aren't UTF-8, with the first byte past the longest valid prefix, from 0.
pub fn rule_text(bytes: &[u8]) -> Result<&str, u32>
    requires { length bytes.now ≤ most_bytes }
    ensures text { IfOk result (λ text. IsUtf8 bytes.now × (chars text.now ≡ text_of bytes.now)) }
    ensures no_longer { IfOk result (λ text. length text.now ≤ length bytes.now) }
    ensures refused { IfErr result (IsNotUtf8At bytes.now) }
{
    match utf8_text(bytes) {
        Ok(text) => Ok(without_mark(text)),
        Err(at) => Err(at),
    }
}

/// The statements of a text.
fn statements_of(alloc: Global, text: &str) -> Result<Statements, CompileErr>
    requires { length text.now ≤ most_bytes }
    ensures statements { IfOk result (λ statements.
        HasStatements (chars text.now) (statement_trees statements)) }
    ensures well_made { IfOk result (λ statements. AreWellMade (statement_trees statements)) }
    ensures refused { IfErr result (λ e. (e ≡ CompileErr.Memory)
        ⊎ ((files : List File) (ignored : Bool) → HasRuleFault files ignored (chars text.now) e)) }
{
    let tokens = match rbbi_lex::lex(alloc, text) {
        Ok(tokens) => tokens,
        Err(error) if error.place().is_some() => return Err(CompileErr::Tokens(error)),
        Err(_) => return Err(CompileErr::Memory),
    };
    match parse(alloc, &tokens, count_characters(text)) {
        Ok(statements) => Ok(statements),
        Err(error) if error.place().is_some() => Err(CompileErr::Grammar(error)),
        Err(_) => Err(CompileErr::Memory),
    }
}

/// The rules that a text means, with these property files. Where `ignored` holds, `$dictionary` is
/// a variable like others.
///
/// The text has at most 100,663,296 bytes. Refuses the first fault of its tokens, its grammar and
/// its meaning, or `Memory`.
pub fn read_rules(
    alloc: Global,
    text: &str,
    props: &PropTable,
    ignored: bool,
) -> Result<Rules, CompileErr>
    requires { length text.now ≤ most_bytes }
    ensures rules { IfOk result (λ rules.
        MeansRules props.now ignored (chars text.now) (rules_of rules)) }
    ensures lawful { IfOk result (λ rules. AreLawful (rules_of rules)) }
    ensures refused { IfErr result (λ e. (e ≡ CompileErr.Memory)
        ⊎ HasRuleFault props.now ignored (chars text.now) e) }
{
    let statements = statements_of(alloc, text)?;
    match resolve(alloc, &statements, count_characters(text), props, ignored) {
        Ok(rules) => Ok(rules),
        Err(error) if error.place().is_some() => Err(CompileErr::Meaning(error)),
        Err(_) => Err(CompileErr::Memory),
    }
}
