//! The rules of short files.
ghost use Rattle.std.specs.Prelude.{◌≤◌, length};
ghost use Rattle.rbbi_model.specs.Rules.{AreLawful};
ghost use Rattle.rbbi_resolve.specs.RuleLists.{rules_of};

use rbbi_lex::lex;
use rbbi_props::PropTable;
use rbbi_resolve::{Rules, resolve};
use rbbi_text::count_characters;
use rbbi_tree::parse;
use std::alloc::Global;
use std::process::Abort;

/// The rules of a text that has no fault.
pub(crate) fn rules_in(rt: &impl Abort, alloc: Global, text: &str) -> Rules
    requires { length text.now ≤ 1000000 }
    ensures { AreLawful (rules_of result) }
{
    let end = count_characters(text);
    let tokens = lex(alloc, text).expect(rt, text);
    let statements = parse(alloc, &tokens, end).expect(rt, text);
    let props = PropTable::new(alloc);
    resolve(alloc, &statements, end, &props, false).expect(rt, text)
}
