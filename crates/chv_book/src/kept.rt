// What a book keeps.
ghost use Rattle.std.specs.Prelude.{◌≡◌, ℕ, List, length};
ghost use Rattle.chv_defs_book.specs.Histories.{last_caller_of};

use chv_defs_book::HistoryEntry;

/// A value that keeps a history: all that its callers did to it, each entry with its caller.
pub trait Kept {
    type Entry: HistoryEntry;

    /// The entries, in their order.
    ghost history: { Self → List Self.Entry };

    /// Two numbers that only caller 0 changes.
    ghost side: { Self → ℕ × ℕ };

    /// What no call changes.
    ghost origin: { Self → Self.Entry.Origin };

    /// How many entries there are.
    fn entries(&self) -> u64
        ensures { result ≡ length (history self.now) };

    /// Who made the last entry.
    fn last_caller(&self) -> Option<u32>
        ensures { result ≡ last_caller_of Self.Entry.made_by (history self.now) };
}
