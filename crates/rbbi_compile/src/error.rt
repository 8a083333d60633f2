//! Why a text has no table.
ghost use Rattle.std.specs.Prelude.{◌≡◌};
ghost use Rattle.rbbi_compile.specs.Errors.{label_of, place_of};

use rbbi_dfa::BuildErr;
use rbbi_lex::LexErr;
use rbbi_resolve::ResolveErr;
use rbbi_tree::TreeErr;
use thiserror::Error;

/// Why the text of a rule file has no rules or no table. No variant but `Memory` tells that memory
/// ran out.
#[derive(Debug, Drop, Error)]
pub enum CompileErr {
    /// The text has no tokens.
    #[error("{0}")]
    Tokens(LexErr),
    /// The tokens are no rule file.
    #[error("{0}")]
    Grammar(TreeErr),
    /// The statements mean no rules.
    #[error("{0}")]
    Meaning(ResolveErr),
    /// The rules have more than 1,000 categories, category 0 counted.
    #[error("more than 1,000 categories")]
    TooManyCategories,
    /// The least table of the rules passes a limit.
    #[error("{0}")]
    Size(BuildErr),
    /// Memory ran out.
    #[error("out of memory")]
    Memory,
}

impl CompileErr {
    /// The name of the fault.
    pub fn label(&self) -> &str
        ensures { result.now ≡ label_of self.now }
    {
        match self {
            CompileErr::Tokens(error) => error.label(),
            CompileErr::Grammar(error) => error.label(),
            CompileErr::Meaning(error) => error.label(),
            CompileErr::TooManyCategories => "TooManyCategories",
            CompileErr::Size(error) => error.label(),
            CompileErr::Memory => "Memory",
        }
    }

    /// The place of the fault in the text, in characters from 0. A limit that the rules pass as a
    /// whole has none, nor has `Memory`.
    pub fn place(&self) -> Option<u32>
        ensures { result ≡ place_of self.now }
    {
        match self {
            CompileErr::Tokens(error) => error.place(),
            CompileErr::Grammar(error) => error.place(),
            CompileErr::Meaning(error) => error.place(),
            CompileErr::TooManyCategories | CompileErr::Size(_) | CompileErr::Memory => None,
        }
    }
}
