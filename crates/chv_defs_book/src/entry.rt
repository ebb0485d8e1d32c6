// Entries of the histories that a book keeps.
ghost use Rattle.std.specs.Prelude.{◌≡◌, ℕ, Bool, false, List, []};

/// An entry of a history that a book keeps: what one of its value's callers did.
pub trait HistoryEntry {
    /// Plain data of the value that no call changes. Every pass to the book knows it.
    type Origin;

    /// Who made the entry. 0 is the value's owner.
    ghost made_by: { Self → ℕ };

    /// Which lists of caller 0's entries leave the value still. While it is still, no other caller has a pass.
    ghost is_still: { List Self → Bool };

    // With no entry it is not still.
    ghost begins_moving: { is_still [] ≡ false };
}
