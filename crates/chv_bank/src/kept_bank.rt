// A bank as the value of a book.
use crate::bank::Bank;
use chv_book::Kept;
use chv_defs_memory::BankEntry;

/// A bank's side is what is reserved for its owner, entries and pages. No call changes which bank it is.
impl Kept for Bank {
    type Entry = BankEntry;

    ghost history = { λ b. b.history };

    ghost side = { λ b. (b.entries, b.pages) };

    ghost origin = { λ b. (b.zone, b.bank) };

    fn entries(&self) -> u64 {
        self.history().len() as u64
    }

    fn last_caller(&self) -> Option<u32> {
        let last = self.history().last()?;
        Some(last.caller)
    }
}
