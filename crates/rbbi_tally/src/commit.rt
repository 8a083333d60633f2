//! What an edit makes of the pieces.
ghost use Rattle.std.specs.Prelude.{◌≡◌, ◌+◌, ◌-◌, ◌≤◌, ◌<◌, ◌++◌, ◌∷◌, [], ℕ, length, map, take};
ghost use Rattle.std.specs.Prelude.{drop, vec_len, vec_capacity, IfOk, MatchBool};
ghost use Rattle.std.specs.List.{AllByRecursion};
ghost use Rattle.rbbi_model.specs.Words.{most_characters};
ghost use Rattle.rbbi_model.specs.Lists.{IsRising};
ghost use Rattle.rbbi_tally.specs.inner.Kept.{at_of};
ghost use Rattle.rbbi_tally.specs.inner.Segments.{moved, place_of};
ghost use Rattle.rbbi_tally.specs.inner.Pieces.{segments_by, segments_in, contents, IsPiece};
ghost use Rattle.rbbi_tally.specs.inner.Pieces.{ArePieces, IsSpot, segments_from, segments_before};
ghost use Rattle.rbbi_tally.specs.inner.Pieces.{IsUpTo, most_looked, farthest};
ghost use Rattle.rbbi_tally.specs.inner.Editing.{CanMove, CanShift, FitText};

use crate::edit::Edit;
use crate::kept::Kept;
use crate::piece::{FILLED, FULL, Piece, reach_of};
use crate::spot::Spot;
use std::alloc::{AllocError, Global};
use std::mem;

/// Adds what is left, from a spot on, of the piece that the spot is in, moved by an edit. It gives
/// the number of the first piece after that.
fn keep_tail(pieces: &[Piece], items: &mut Vec<Kept>, start: u32, met: Spot, edit: Edit) -> usize
    requires pieces { ArePieces pieces.now }
    requires spot { IsSpot pieces.now met }
    requires movable { AllByRecursion (CanMove edit start) (segments_from pieces.now met) }
    requires room { vec_len items.old + length (segments_from pieces.now met)
        ≤ vec_capacity items.old }
    ensures past { met.piece ≤ result }
    ensures past_cut { 0 < met.item → met.piece < result }
    ensures within { result ≤ length pieces.now }
    ensures movable { AllByRecursion (CanMove edit start) (contents (drop result pieces.now)) }
    ensures tail { segments_by start items.new.items
        ++ map (moved edit.removed edit.inserted) (contents (drop result pieces.now))
        ≡ segments_by start items.old.items
        ++ map (moved edit.removed edit.inserted) (segments_from pieces.now met) }
{
    if met.item == 0 {
        return met.piece;
    }
    let piece = &pieces[met.piece];
    for k in met.item..piece.items.len() {
        let kept = piece.items[k];
        let at = piece.start + kept.at() - edit.removed + edit.inserted;
        items.push_reserved(Kept::new(at - start, kept.ahead(), kept.list()));
    }
    met.piece + 1
}

/// Moves the pieces from a number on, which lie after an edit.
fn shift_behind(pieces: &mut Vec<Piece>, past: usize, edit: Edit)
    requires pieces { ArePieces pieces.old.items }
    requires past { past ≤ length pieces.old.items }
    requires movable { AllByRecursion (CanShift edit) (drop past pieces.old.items) }
    ensures pieces { ArePieces pieces.new.items }
    ensures before { take past pieces.new.items ≡ take past pieces.old.items }
    ensures behind { contents (drop past pieces.new.items)
        ≡ map (moved edit.removed edit.inserted) (contents (drop past pieces.old.items)) }
    ensures len { length pieces.new.items ≡ length pieces.old.items }
    ensures room { vec_capacity pieces.new ≡ vec_capacity pieces.old }
{
    for k in past..pieces.len() {
        pieces[k].shift(edit.removed, edit.inserted);
    }
}

/// Cuts the piece that a spot is in, before the spot, and gives the number of pieces before it.
fn cut_at(pieces: &mut Vec<Piece>, first: Spot) -> usize
    requires pieces { ArePieces pieces.old.items }
    requires spot { IsSpot pieces.old.items first }
    ensures pieces { ArePieces pieces.new.items }
    ensures front { contents (take result pieces.new.items)
        ≡ segments_before pieces.old.items first }
    ensures rest { drop result pieces.new.items ≡ drop result pieces.old.items }
    ensures within { result ≤ length pieces.new.items }
    ensures whole { first.item ≡ 0 → result ≡ first.piece }
    ensures parted { result ≤ first.piece + 1 }
    ensures len { length pieces.new.items ≡ length pieces.old.items }
    ensures room { vec_capacity pieces.new ≡ vec_capacity pieces.old }
{
    if first.item == 0 {
        return first.piece;
    }
    pieces[first.piece].cut(first.item);
    first.piece + 1
}

/// A piece of these segments, whose places count from `start`, with room for further ones.
fn copied(alloc: Global, start: u32, items: &[Kept]) -> Result<Piece, AllocError>
    requires some { 0 < length items.now }
    requires rise { IsRising (map at_of items.now) }
    requires small { AllByRecursion FitText (segments_by start items.now) }
    ensures { IfOk result (λ piece. IsPiece piece
        × (segments_in piece ≡ segments_by start items.now)) }
{
    let first = items[0].at();
    let mut own = Vec::with_capacity(alloc, FULL)?;
    for kept in items {
        own.push(Kept::new(kept.at() - first, kept.ahead(), kept.list()))?;
    }
    Ok(Piece::new(start + first, own))
}

/// New pieces of these segments, whose places count from `start`.
fn pieces_of(alloc: Global, start: u32, items: &[Kept]) -> Result<Vec<Piece>, AllocError>
    requires rise { IsRising (map at_of items.now) }
    requires small { AllByRecursion FitText (segments_by start items.now) }
    ensures { IfOk result (λ pieces. ArePieces pieces.items
        × (contents pieces.items ≡ segments_by start items.now)) }
{
    let mut pieces = Vec::new(alloc);
    let mut from = 0;
    while from < items.len() {
        let to = items.len().min(from + FILLED);
        pieces.push(copied(alloc, start, &items[from..to])?)?;
        from = to;
    }
    Ok(pieces)
}

/// Adds the segments to the last of the first pieces, if there are few and there is memory for
/// them, and returns whether it did.
fn extend(pieces: &mut Vec<Piece>, front: usize, start: u32, items: &[Kept]) -> bool
    requires pieces { ArePieces pieces.old.items }
    requires within { front ≤ length pieces.old.items }
    requires small { AllByRecursion FitText (segments_by start items.now) }
    requires behind { AllByRecursion (λ piece. piece.start ≤ start) (take front pieces.old.items) }
    ensures pieces { ArePieces pieces.new.items }
    ensures room { vec_capacity pieces.new ≡ vec_capacity pieces.old }
    ensures len { length pieces.new.items ≡ length pieces.old.items }
    ensures rest { drop front pieces.new.items ≡ drop front pieces.old.items }
    ensures front { MatchBool result
        (contents (take front pieces.new.items)
        ≡ contents (take front pieces.old.items) ++ segments_by start items.now)
        (contents (take front pieces.new.items) ≡ contents (take front pieces.old.items)) }
{
    if front == 0 || pieces[front - 1].items.len() + items.len() > FULL {
        return false;
    }
    let reach = reach_of(start, items);
    pieces[front - 1].append(start, reach, items)
}

/// Inserts pieces after the first ones, if there is memory for that, and returns whether it did.
fn insert_all(pieces: &mut Vec<Piece>, front: usize, new: Vec<Piece>) -> bool
    requires { front ≤ length pieces.old.items }
    ensures items { MatchBool result
        (pieces.new.items ≡ take front pieces.old.items
        ++ (new.items ++ drop front pieces.old.items))
        (pieces.new.items ≡ pieces.old.items) }
    ensures room { vec_capacity pieces.old ≤ vec_capacity pieces.new }
{
    let mut new = new;
    let count = new.len();
    if pieces.append(&mut new).is_err() {
        return false;
    }
    pieces.slice_mut(front..).rotate_right(count);
    true
}

/// Inserts a piece after the first ones. There is room for it.
fn insert_one(pieces: &mut Vec<Piece>, front: usize, piece: Piece)
    requires within { front ≤ length pieces.old.items }
    requires room { vec_len pieces.old < vec_capacity pieces.old }
    ensures { pieces.new.items ≡ take front pieces.old.items
        ++ (piece ∷ drop front pieces.old.items) }
{
    match pieces.insert(front, piece) {
        Ok(()) => {}
        Err(_) => unreachable!(),
    }
}

/// Inserts segments after the first pieces, and returns how many pieces it added. Without memory
/// for pieces of the usual size it makes one of all, for which there is room.
fn put(
    alloc: Global,
    pieces: &mut Vec<Piece>,
    front: usize,
    start: u32,
    items: &mut Vec<Kept>,
) -> usize
    requires pieces { ArePieces pieces.old.items }
    requires within { front ≤ length pieces.old.items }
    requires room { vec_len pieces.old < vec_capacity pieces.old }
    requires small { AllByRecursion FitText (segments_by start items.old.items) }
    requires rise { IsRising (map at_of items.old.items) }
    requires begin { place_of (segments_by start items.old.items) start ≡ start }
    requires behind { AllByRecursion (λ piece. piece.start ≤ start) (take front pieces.old.items) }
    ensures pieces { ArePieces pieces.new.items }
    ensures front { contents (take (front + result) pieces.new.items)
        ≡ contents (take front pieces.old.items) ++ segments_by start items.old.items }
    ensures rest { drop (front + result) pieces.new.items ≡ drop front pieces.old.items }
    ensures len { length pieces.new.items ≡ length pieces.old.items + result }
{
    if items.is_empty() || extend(pieces, front, start, items) {
        return 0;
    }
    if let Ok(new) = pieces_of(alloc, start, items) {
        let count = new.len();
        if insert_all(pieces, front, new) {
            return count;
        }
    }
    let own = mem::replace(items, Vec::new(alloc));
    insert_one(pieces, front, Piece::new(start, own));
    1
}

/// Removes the pieces from one number up to another.
fn remove(pieces: &mut Vec<Piece>, low: usize, high: usize)
    requires order { low ≤ high }
    requires within { high ≤ length pieces.old.items }
    ensures { pieces.new.items ≡ take low pieces.old.items ++ drop high pieces.old.items }
{
    if low < high {
        drop(pieces.drain(low..high));
    }
}

/// Appends the segments of a piece to those of the piece before it, if both are few and there is
/// memory for that.
fn join(pieces: &mut Vec<Piece>, number: usize)
    requires pieces { ArePieces pieces.old.items }
    requires rise { IsRising (map (λ segment. segment.at) (contents pieces.old.items)) }
    requires small { AllByRecursion FitText (contents pieces.old.items) }
    ensures pieces { ArePieces pieces.new.items }
    ensures same { contents pieces.new.items ≡ contents pieces.old.items }
{
    if number == 0 || number >= pieces.len() {
        return;
    }
    if pieces[number - 1].items.len() + pieces[number].items.len() > FILLED {
        return;
    }
    let piece = pieces.remove(number);
    if !pieces[number - 1].append(piece.start, piece.reach, &piece.items) {
        insert_one(pieces, number, piece);
    }
}

/// Replaces the segments from `first` up to `met` by those that were found again, and moves those
/// from there on. It takes no memory that it can't do without.
pub(crate) fn commit(
    alloc: Global,
    pieces: &mut Vec<Piece>,
    items: &mut Vec<Kept>,
    start: u32,
    first: Spot,
    met: Spot,
    edit: Edit,
)
    requires pieces { ArePieces pieces.old.items }
    requires first { IsSpot pieces.old.items first }
    requires met { IsSpot pieces.old.items met }
    requires order { IsUpTo first met }
    requires movable { AllByRecursion (CanMove edit start)
        (segments_from pieces.old.items met) }
    requires room { vec_len items.old + length (segments_from pieces.old.items met)
        ≤ vec_capacity items.old }
    requires room_for_one { vec_len pieces.old < vec_capacity pieces.old }
    requires before { AllByRecursion (λ segment. segment.at < start)
        (segments_before pieces.old.items first) }
    requires begin { place_of (segments_by start items.old.items ++ map
        (moved edit.removed edit.inserted) (segments_from pieces.old.items met)) start ≡ start }
    requires rise { IsRising (map (λ segment. segment.at)
        (segments_before pieces.old.items first ++ (segments_by start items.old.items ++ map
        (moved edit.removed edit.inserted) (segments_from pieces.old.items met)))) }
    requires small { AllByRecursion FitText
        (segments_before pieces.old.items first ++ (segments_by start items.old.items ++ map
        (moved edit.removed edit.inserted) (segments_from pieces.old.items met))) }
    ensures pieces { ArePieces pieces.new.items }
    ensures contents { contents pieces.new.items
        ≡ segments_before pieces.old.items first ++ (segments_by start items.old.items ++ map
        (moved edit.removed edit.inserted) (segments_from pieces.old.items met)) }
{
    let past = keep_tail(pieces, items, start, met, edit);
    let front = cut_at(pieces, first);
    shift_behind(pieces, past, edit);
    let count = put(alloc, pieces, front, start, items);
    remove(pieces, front + count, past + count);
    join(pieces, front + count);
    join(pieces, front);
}
