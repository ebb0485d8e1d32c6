// What a bank keeps beside its history.
ghost use Rattle.std.specs.Prelude.{◌≡◌, ◌<◌, ◌^◌, ℕ, [], false, length, IfOk};
ghost use Rattle.chv_defs_memory.specs.BlockSets.{has};

use crate::pins::Pins;
use chv_pages::Pages;
use chv_set::BlockSet;
use std::alloc::{AllocError, Global};

/// How many blocks a zone has at most.
pub const MOST_BLOCKS: u32 = 32_768;

/// What a bank's history says at its end, kept so that no call has to go over the history.
#[derive(Drop)]
pub struct State {
    pub open_blocks: BlockSet,
    pub sealed_blocks: BlockSet,
    pub frozen: bool,
    pub pins: Pins,
    pub memory: Pages,
}

impl State {
    ghost use Rattle.chv_bank.specs.Caches.{IsStateAfter};

    /// What is kept beside an empty history.
    pub fn new(alloc: Global) -> Result<State, AllocError>
        ensures state { IfOk result (λ s. (bank : ℕ) → IsStateAfter bank [] s) }
        ensures reserved { IfOk result (λ s. s.memory.reserved ≡ 0) }
    {
        Ok(State {
            open_blocks: empty_set(alloc, MOST_BLOCKS)?,
            sealed_blocks: empty_set(alloc, MOST_BLOCKS)?,
            frozen: false,
            pins: Pins::new(alloc),
            memory: Pages::new(alloc, MOST_BLOCKS)?,
        })
    }
}

fn empty_set(alloc: Global, size: u32) -> Result<BlockSet, AllocError>
    ensures len { IfOk result (λ set. length set ≡ size) }
    ensures none { IfOk result (λ set. (k : ℕ) → k < size → has set k ≡ false) }
{
    BlockSet::new(alloc, size)
}
