// Runs of blocks, made from one end to the other.
ghost use Rattle.std.specs.Prelude.{◌≡◌, ◌-◌, ◌^◌, ◌<◌, IfOk, OnOk, OnErr, length};
ghost use Rattle.chv_defs_memory.specs.BlockSets.{ranges_of};
ghost use Rattle.chv_set.specs.Runs.{onto_end, touches_end};

use chv_defs_memory::Span;
use std::alloc::{AllocError, Global};

/// The maximal runs of a set, ascending.
pub fn runs_in(alloc: Global, blocks: &[bool]) -> Result<Vec<Span>, AllocError>
    requires { length blocks.now < 2 ^ 32 }
    ensures { IfOk result (λ runs. runs.items ≡ ranges_of blocks.now) }
{
    let mut runs = Vec::new(alloc);
    for block in 0..blocks.len() {
        if blocks[block] {
            push_block(&mut runs, block as u32)?;
        }
    }
    Ok(runs)
}

// Puts a number behind the runs of smaller ones: it joins the last run where they touch.
fn push_block(runs: &mut Vec<Span>, block: u32) -> Result<(), AllocError>
    requires { block < 2 ^ 32 - 1 }
    ensures ok { OnOk result (runs.new.items ≡ onto_end runs.old.items block) }
    ensures err { OnErr result (runs.new.items ≡ runs.old.items) }
{
    if touches_last(runs.as_slice(), block) {
        let last = runs.len() - 1;
        runs[last].count += 1;
        return Ok(());
    }
    runs.push(Span {
        first: block,
        count: 1,
    })?;
    Ok(())
}

// Whether the last run ends right before the block.
fn touches_last(runs: &[Span], block: u32) -> bool
    ensures { result ≡ touches_end runs.now block }
{
    match runs.last() {
        Some(last) => last.first as u64 + last.count as u64 == block as u64,
        None => false,
    }
}
