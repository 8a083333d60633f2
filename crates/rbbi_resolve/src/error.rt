//! Why a rule file is refused.
ghost use Rattle.std.specs.Prelude.{◌≡◌, codes};
ghost use Rattle.rbbi_resolve.specs.Refusals.{label_of, place_of, fault_of};

use crate::fault::{Fault, FaultKind};
use std::alloc::AllocError;
use thiserror::Error;

/// Why a rule file is refused. Each place is in characters from 0.
#[derive(Debug, Drop, Error)]
pub enum ResolveErr {
    /// A control that the language doesn't have; its place.
    #[error("unknown control at {0}")]
    UnknownControl(u32),
    /// `!!LBCMNoChain` or `!!unquoted_literals`; its place.
    #[error("unsupported control at {0}")]
    UnsupportedControl(u32),
    /// An assignment to `$dictionary`, where that isn't ignored; the place of the name.
    #[error("a dictionary at {0}")]
    Dictionary(u32),
    /// An assignment to a name that an earlier statement assigns; the place of the name.
    #[error("a variable is assigned again at {0}")]
    Redefined(u32),
    /// A use of a name that no earlier statement assigns; the place of the name.
    #[error("undefined variable at {0}")]
    Undefined(u32),
    /// A use in a set of a variable that is no set; the place of the name.
    #[error("a variable that is no set at {0}")]
    NotASet(u32),
    /// A property that neither the property files nor the database have; its place.
    #[error("unknown property at {0}")]
    UnknownProperty(u32),
    /// A range whose first character is greater than its last; the place of the first.
    #[error("a range that falls at {0}")]
    BadRange(u32),
    /// A set or property outside of sets that holds no character; the place of its first token.
    #[error("an empty set at {0}")]
    EmptySet(u32),
    /// A bare character outside of sets after `!!quoted_literals_only`; its place.
    #[error("a bare character at {0}")]
    BareLiteral(u32),
    /// A `/` before which the empty word may stand; its place.
    #[error("the empty word before the slash at {0}")]
    EmptyFront(u32),
    /// A `/` after which the empty word may stand; its place.
    #[error("the empty word behind the slash at {0}")]
    EmptyRest(u32),
    /// No active rule; the place of the end.
    #[error("no rule")]
    NoRules(u32),
    /// More than 4,096 active rules; the place of the 4,097th.
    #[error("more than 4,096 rules at {0}")]
    TooManyRules(u32),
    /// More than 8,192 leaves in the active rules; the place of the first rule with which they are.
    #[error("more than 8,192 leaves at {0}")]
    TooManyLeaves(u32),
    /// More than 32 active rules with a `/`; the place of the 33rd.
    #[error("more than 32 slashes at {0}")]
    TooManySlashes(u32),
    /// An active rule of a height over 256; the place of the first.
    #[error("a rule that is too tall at {0}")]
    TooTall(u32),
    /// Memory ran out.
    #[error("out of memory")]
    Memory,
}

impl ResolveErr {
    /// The name of the variant.
    pub fn label(&self) -> &str
        ensures { result.now ≡ label_of self.now }
    {
        match self {
            ResolveErr::UnknownControl(_) => "UnknownControl",
            ResolveErr::UnsupportedControl(_) => "UnsupportedControl",
            ResolveErr::Dictionary(_) => "Dictionary",
            ResolveErr::Redefined(_) => "Redefined",
            ResolveErr::Undefined(_) => "Undefined",
            ResolveErr::NotASet(_) => "NotASet",
            ResolveErr::UnknownProperty(_) => "UnknownProperty",
            ResolveErr::BadRange(_) => "BadRange",
            ResolveErr::EmptySet(_) => "EmptySet",
            ResolveErr::BareLiteral(_) => "BareLiteral",
            ResolveErr::EmptyFront(_) => "EmptyFront",
            ResolveErr::EmptyRest(_) => "EmptyRest",
            ResolveErr::NoRules(_) => "NoRules",
            ResolveErr::TooManyRules(_) => "TooManyRules",
            ResolveErr::TooManyLeaves(_) => "TooManyLeaves",
            ResolveErr::TooManySlashes(_) => "TooManySlashes",
            ResolveErr::TooTall(_) => "TooTall",
            ResolveErr::Memory => "Memory",
        }
    }

    /// The place that the refusal carries, in characters from 0.
    pub fn place(&self) -> Option<u32>
        ensures { result ≡ place_of self.now }
    {
        match self {
            ResolveErr::UnknownControl(place)
            | ResolveErr::UnsupportedControl(place)
            | ResolveErr::Dictionary(place)
            | ResolveErr::Redefined(place)
            | ResolveErr::Undefined(place)
            | ResolveErr::NotASet(place)
            | ResolveErr::UnknownProperty(place)
            | ResolveErr::BadRange(place)
            | ResolveErr::EmptySet(place)
            | ResolveErr::BareLiteral(place)
            | ResolveErr::EmptyFront(place)
            | ResolveErr::EmptyRest(place)
            | ResolveErr::NoRules(place)
            | ResolveErr::TooManyRules(place)
            | ResolveErr::TooManyLeaves(place)
            | ResolveErr::TooManySlashes(place)
            | ResolveErr::TooTall(place) => Some(*place),
            ResolveErr::Memory => None,
        }
    }
}

impl From<AllocError> for ResolveErr {
    ghost use Rattle.rbbi_resolve.specs.declared.error.ResolveErr.TheVariants.{Memory};

    ghost from_gives = { λ _ e. e ≡ Memory };

    fn from(_e: AllocError) -> ResolveErr {
        ResolveErr::Memory
    }
}

/// The refusal that tells a fault.
pub(crate) fn refusal(fault: Fault) -> ResolveErr
    ensures { fault_of result ≡ Some fault }
{
    let place = fault.place;
    match fault.kind {
        FaultKind::UnknownControl => ResolveErr::UnknownControl(place),
        FaultKind::UnsupportedControl => ResolveErr::UnsupportedControl(place),
        FaultKind::Dictionary => ResolveErr::Dictionary(place),
        FaultKind::Redefined => ResolveErr::Redefined(place),
        FaultKind::Undefined => ResolveErr::Undefined(place),
        FaultKind::NotASet => ResolveErr::NotASet(place),
        FaultKind::UnknownProperty => ResolveErr::UnknownProperty(place),
        FaultKind::BadRange => ResolveErr::BadRange(place),
        FaultKind::EmptySet => ResolveErr::EmptySet(place),
        FaultKind::BareLiteral => ResolveErr::BareLiteral(place),
        FaultKind::EmptyFront => ResolveErr::EmptyFront(place),
        FaultKind::EmptyRest => ResolveErr::EmptyRest(place),
        FaultKind::NoRules => ResolveErr::NoRules(place),
        FaultKind::TooManyRules => ResolveErr::TooManyRules(place),
        FaultKind::TooManyLeaves => ResolveErr::TooManyLeaves(place),
        FaultKind::TooManySlashes => ResolveErr::TooManySlashes(place),
        FaultKind::TooTall => ResolveErr::TooTall(place),
    }
}
