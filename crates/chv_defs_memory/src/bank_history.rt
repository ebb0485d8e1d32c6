// A bank's entries, as what a book keeps.
use crate::bank::BankEntry;
use chv_defs_book::HistoryEntry;

/// The origin of a bank is the numbers of its zone and of itself. A bank is still where it is frozen.
impl HistoryEntry for BankEntry {
    ghost use Rattle.std.specs.Prelude.{refl};
    ghost use Rattle.chv_defs_memory.specs.BankState.{is_frozen};

    type Origin = (u8, u8);

    ghost made_by = { λ e. e.caller };

    ghost is_still = { is_frozen };

    ghost begins_moving = { refl };
}
