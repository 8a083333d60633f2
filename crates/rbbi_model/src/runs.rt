//! Laws of anchors.

ghost use Rattle.std.specs.Prelude.{◌≡◌, ℕ, ◌+◌, ◌↔◌, List, IsTrue};
ghost use Rattle.rbbi_model.specs.Cover.{places};
ghost use Rattle.rbbi_model.specs.Tables.{Table};
ghost use Rattle.rbbi_model.specs.ValidTables.{IsValidTable};
ghost use Rattle.rbbi_model.specs.Searches.{fresh, table_boundaries};
ghost use Rattle.rbbi_model.specs.Runs.{IsAnchor, is_anchor, low, from_place};

/// In a valid table the stored bits of the safe pairs tell the anchors of a text.
pub fn anchors_are_stored()
    ensures { (table : Table) → IsValidTable table → (x : List ℕ) (p : ℕ) →
        IsTrue (is_anchor table x p) ↔ IsAnchor table x p }
{}

/// From an anchor of a text, the places that are found past it are exactly the boundaries past it,
/// by every valid table. From two characters past the anchor on their statuses are the true ones
/// too, and everywhere for the anchor 0.
pub fn anchors_lead_to_the_boundaries()
    ensures { (table : Table) → IsValidTable table → (x : List ℕ) (p : ℕ) → IsAnchor table x p →
        (places (from_place (p + 1) (fresh table x p)) ≡ places
        (from_place (p + 1) (table_boundaries table x)))
        × (from_place (low p) (fresh table x p) ≡ from_place (low p) (table_boundaries table x)) }
{}
