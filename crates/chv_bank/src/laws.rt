// Laws of legal histories. Each is the contract of a function that does nothing.
ghost use Rattle.chv_bank.specs.Laws.{ClosedBlocksAreNotReached, OpenedBlocksAreZero, PinnedBankIsLeft, PinnedBlocksStayOpen, ReadsGiveTheLastWrite, UnwrittenBytesAreZero};

/// Between a Pin that is answered Pinned and its Unpin, its blocks are open and not sealed at every place.
pub fn pinned_blocks_stay_open()
    ensures { PinnedBlocksStayOpen }
{}

/// Between a Pin that is answered Pinned and its Unpin, no entry freezes, shapes or wipes the bank.
pub fn pinned_bank_is_left()
    ensures { PinnedBankIsLeft }
{}

/// Between a Close of a block and the next Open or Shape that opens it, no Read, Write or Pin of it is done.
pub fn closed_blocks_are_not_reached()
    ensures { ClosedBlocksAreNotReached }
{}

/// A newly opened block reads as zero.
pub fn opened_blocks_are_zero()
    ensures { OpenedBlocksAreZero }
{}

/// A Read that is done gives for each byte that of the last done Write or Fill which covers it.
pub fn reads_give_the_last_write()
    ensures { ReadsGiveTheLastWrite }
{}

/// A Read that is done gives 0 for each byte that no done Write or Fill covers since its block was opened.
pub fn unwritten_bytes_are_zero()
    ensures { UnwrittenBytesAreZero }
{}
