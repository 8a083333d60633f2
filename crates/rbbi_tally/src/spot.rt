//! Spots in a list of pieces.
ghost use Rattle.std.specs.Prelude.{◌≡◌, ◌+◌, ◌≤◌, ◌<◌, ℕ, length, drop, slice_index};
ghost use Rattle.std.specs.List.{AllByRecursion};
ghost use Rattle.rbbi_tally.specs.inner.Segments.{place_of};
ghost use Rattle.rbbi_tally.specs.inner.Pieces.{ArePieces, IsSpot, segments_from, segments_before};
ghost use Rattle.rbbi_tally.specs.inner.Pieces.{IsUpTo};
ghost use Rattle.rbbi_tally.specs.inner.Counting.{AreCounted};
ghost use Rattle.rbbi_tally.specs.inner.Searching.{IsSkipped};
ghost use Rattle.rbbi_tally.specs.inner.Spots.{IsFirstReaching};

use crate::piece::Piece;

/// A segment, by the number of its piece and its number in there. After the last piece, the
/// number of the segment is 0.
#[derive(Clone, Copy)]
pub(crate) struct Spot {
    pub(crate) piece: usize,
    pub(crate) item: usize,
}

/// The first segment whose search looks past a place, or the end. A piece in which there is none is
/// passed over by its reach.
pub(crate) fn first_reaching(pieces: &[Piece], place: u32) -> Spot
    requires { ArePieces pieces.now }
    ensures spot { IsSpot pieces.now result }
    ensures first { IsFirstReaching place (segments_before pieces.now result)
        (segments_from pieces.now result) }
{
    for (piece, here) in pieces.iter().enumerate() {
        if here.reach > place {
            let item = here.first_reaching(place);
            return Spot { piece, item };
        }
    }
    Spot {
        piece: pieces.len(),
        item: 0,
    }
}

/// Where the segment begins; at the end, the place given.
pub(crate) fn place_at(pieces: &[Piece], spot: Spot, end: u32) -> u32
    requires pieces { ArePieces pieces.now }
    requires spot { IsSpot pieces.now spot }
    ensures { result ≡ place_of (segments_from pieces.now spot) end }
{
    if spot.piece == pieces.len() {
        return end;
    }
    let piece = &pieces[spot.piece];
    piece.start + piece.items[spot.item].at()
}

/// The next segment.
fn next(pieces: &[Piece], spot: Spot) -> Spot
    requires pieces { ArePieces pieces.now }
    requires spot { IsSpot pieces.now spot }
    requires short { spot.piece < length pieces.now }
    ensures spot { IsSpot pieces.now result }
    ensures rest { segments_from pieces.now result ≡ drop 1 (segments_from pieces.now spot) }
    ensures order { IsUpTo spot result }
{
    if spot.item + 1 < pieces[spot.piece].items.len() {
        return Spot {
            piece: spot.piece,
            item: spot.item + 1,
        };
    }
    Spot {
        piece: spot.piece + 1,
        item: 0,
    }
}

/// The first segment from a spot on that doesn't begin before a place. Those before it are taken
/// from the counts.
pub(crate) fn skip(pieces: &[Piece], counts: &mut [u32], from: Spot, place: u32) -> Spot
    requires pieces { ArePieces pieces.now }
    requires spot { IsSpot pieces.now from }
    requires counted { AreCounted (segments_from pieces.now from) counts.old }
    ensures spot { IsSpot pieces.now result }
    ensures skipped { IsSkipped place (segments_from pieces.now from)
        (segments_from pieces.now result) counts.old counts.new }
    ensures order { IsUpTo from result }
{
    let mut spot = from;
    while spot.piece < pieces.len() {
        let piece = &pieces[spot.piece];
        let kept = piece.items[spot.item];
        if piece.start + kept.at() >= place {
            return spot;
        }
        counts[kept.list() as usize] -= 1;
        spot = next(pieces, spot);
    }
    spot
}
