//! Laws of the boundaries by rules.

ghost use Rattle.std.specs.Prelude.{ℕ, List, length};
ghost use Rattle.rbbi_model.specs.Rules.{Rule};
ghost use Rattle.rbbi_model.specs.Boundaries.{Boundary, AreBoundaries};
ghost use Rattle.rbbi_model.specs.Cover.{CoverText};

/// The boundaries by rules begin with 0, rise strictly and end with the text's length.
pub fn boundaries_cover_the_text()
    ensures { (rules : List Rule) (x : List ℕ) (boundaries : List Boundary) →
        AreBoundaries rules x boundaries → CoverText (length x) boundaries }
{}
