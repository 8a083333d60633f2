//! What is found in a rule file.
ghost use Rattle.std.specs.Prelude.{◌≤◌, length, IfOk, OnOk};
ghost use Rattle.std.specs.List.{All};
ghost use Rattle.std.specs.Str.{chars};
ghost use Rattle.rbbi_text.specs.Bytes.{most_bytes};
ghost use Rattle.rbbi_lint.specs.Effects.{ChangesNothing};

use crate::cuts::late_cuts;
use crate::effect::{Effect, effect_of};
use crate::empty::empty_rules;
use crate::finder::pieces_of;
use crate::habits::{Found, habits_of};
use crate::piece::Piece;
use crate::statements::{Statement, statements_of};
use crate::together::{Endings, Hidden, Pair, find_endings};
use rbbi_lex::{Tokens, lex};
use rbbi_props::PropTable;
use rbbi_resolve::Rules;
use rbbi_table::Table;
use std::alloc::{AllocError, Global};

/// What is found in a rule file. Places are in characters from 0.
#[derive(Drop)]
pub struct Findings {
    /// The pieces that change nothing, each left out alone. Within such a piece there is no other.
    pub idle: Vec<Piece>,
    /// The names that are assigned and that no active rule uses, not even over other names.
    pub unused: Vec<u32>,
    /// The rules that can match the empty text, which isn't a segment.
    pub empty: Vec<u32>,
    /// The rules that always end together and have different statuses.
    pub together: Vec<Pair>,
    /// The other rules whose status is never shown.
    pub hidden: Vec<Hidden>,
    /// The look-ahead rules that may cut later than meant.
    pub late: Vec<u32>,
    /// What means something else in other languages.
    pub habits: Vec<Found>,
}

/// The tokens of a text, and none if it has a fault in them.
fn tokens_of(alloc: Global, text: &str) -> Result<Tokens, AllocError>
    requires { length text.now ≤ most_bytes }
{
    match lex(alloc, text) {
        Ok(tokens) => Ok(tokens),
        Err(error) if error.place().is_some() => Ok(Tokens::new(alloc)),
        Err(_) => Err(AllocError),
    }
}

/// Adds a piece to those that change nothing, if it is one, and answers whether it is.
fn add_if_idle(
    alloc: Global,
    text: &str,
    table: &Table,
    piece: Piece,
    props: &PropTable,
    ignored: bool,
    idle: &mut Vec<Piece>,
) -> Result<bool, AllocError>
    requires { length text.now ≤ most_bytes }
    ensures { OnOk result (
        All (ChangesNothing props.now ignored (chars text.now) table.now) idle.old.items
        → All (ChangesNothing props.now ignored (chars text.now) table.now) idle.new.items) }
{
    let effect = effect_of(alloc, text, table, piece, props, ignored)?;
    let Effect::Nothing = effect else {
        return Ok(false);
    };
    idle.push(piece)?;
    Ok(true)
}

/// The pieces that change nothing, but for those within others. A piece comes before those within
/// it.
fn idle_of(
    alloc: Global,
    text: &str,
    table: &Table,
    pieces: &[Piece],
    props: &PropTable,
    ignored: bool,
) -> Result<Vec<Piece>, AllocError>
    requires { length text.now ≤ most_bytes }
    ensures { IfOk result (λ idle.
        All (ChangesNothing props.now ignored (chars text.now) table.now) idle.items) }
{
    let mut idle = Vec::new(alloc);
    let mut past = 0;
    for piece in pieces {
        if piece.to <= past {
            continue;
        }
        if add_if_idle(alloc, text, table, *piece, props, ignored, &mut idle)? {
            past = piece.to;
        }
    }
    Ok(idle)
}

/// The places of the names that are assigned and that no active rule uses.
fn unused_of(alloc: Global, statements: &[Statement<'_>]) -> Result<Vec<u32>, AllocError> {
    let mut places = Vec::new(alloc);
    for statement in statements {
        if statement.assigns.is_some() && !statement.is_used {
            places.push(statement.place)?;
        }
    }
    Ok(places)
}

/// The pieces of a text that means these rules which `lint` leaves out, one after another: active
/// rules, alternatives, and parts of sets. A piece comes before those within it.
///
/// The text has at most 100,663,296 bytes.
pub fn pieces(alloc: Global, text: &str, rules: &Rules) -> Result<Vec<Piece>, AllocError>
    requires { length text.now ≤ most_bytes }
{
    let tokens = tokens_of(alloc, text)?;
    let statements = statements_of(alloc, &tokens, rules)?;
    pieces_of(alloc, &tokens, statements.as_slice())
}

/// What is found in a text that means these rules and has this table, with these property files.
///
/// The text has at most 100,663,296 bytes. It is compiled once for each piece, and once more.
pub fn lint(
    alloc: Global,
    text: &str,
    rules: &Rules,
    table: &Table,
    props: &PropTable,
    ignored: bool,
) -> Result<Findings, AllocError>
    requires { length text.now ≤ most_bytes }
    ensures { IfOk result (λ findings.
        All (ChangesNothing props.now ignored (chars text.now) table.now) findings.idle.items) }
{
    let tokens = tokens_of(alloc, text)?;
    let statements = statements_of(alloc, &tokens, rules)?;
    let pieces = pieces_of(alloc, &tokens, statements.as_slice())?;
    let idle = idle_of(alloc, text, table, pieces.as_slice(), props, ignored)?;
    let habits = habits_of(alloc, text, &tokens)?;
    let Endings { together, hidden } = find_endings(
        alloc,
        text,
        statements.as_slice(),
        rules,
        props,
        ignored,
    )?;
    Ok(Findings {
        idle,
        unused: unused_of(alloc, statements.as_slice())?,
        empty: empty_rules(alloc, rules)?,
        together,
        hidden,
        late: late_cuts(alloc, rules)?,
        habits,
    })
}
