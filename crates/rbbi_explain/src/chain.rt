//! Chains of rules, and which of two comes first.

/// How a rule ends somewhere, or how it came to a position: the last match of a chain.
///
/// Of two chains the lesser one is chosen: it has fewer rules, or as many and its last rule is the
/// earlier one of the file, or it is the same and its match is the longer one.
#[derive(Clone, Copy, PartialEq, Eq, PartialOrd, Ord)]
pub(crate) struct Last {
    /// How many rules the chain has.
    pub(crate) rules: u32,
    pub(crate) rule: u32,
    /// Where the match begins. If there is a rule before, that one ends one character later.
    pub(crate) start: u32,
}

/// The first of two chains.
pub(crate) fn first_of(known: Option<Last>, other: Last) -> Last {
    match known {
        Some(known) if known < other => known,
        _ => other,
    }
}
