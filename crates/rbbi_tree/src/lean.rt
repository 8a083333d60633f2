//! Lists that mostly have one element.
ghost use Rattle.std.specs.Prelude.{◌≡◌, ◌++◌, ◌∷◌, [], OnOk};

use std::alloc::AllocError;

/// Adds an element at the end. The first one takes room for itself alone: a rule file may have half
/// a million sequences and sets of one element, and the least room of a list is for four.
pub fn push_lean<T: Drop>(list: &mut Vec<T>, element: T) -> Result<(), AllocError>
    ensures { OnOk result (list.new.items ≡ list.old.items ++ element ∷ []) }
{
    if list.is_empty() {
        list.reserve_exact(1)?;
    }
    list.push(element)?;
    Ok(())
}
