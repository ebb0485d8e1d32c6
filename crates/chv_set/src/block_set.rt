// A set of numbers below its size.
ghost use Rattle.std.specs.Prelude.{◌≡◌, ℕ, ◌+◌, ◌≤◌, ◌<◌, ◌^◌, IfOk, length, filter};
ghost use Rattle.chv_defs_memory.specs.BlockSets.{AreRuns, count_of, first_within, has, no_blocks, ranges_of, with_span, without_span};

use crate::runs::runs_in;
use chv_defs_base::Row;
use chv_defs_memory::Span;
use std::alloc::{AllocError, Global};
use std::marker::Model;

/// A set of numbers below its size. Contracts see one truth value for each of these numbers, which says
/// whether it is in the set.
#[derive(Drop)]
pub struct BlockSet {
    alloc: Global,
    blocks: Vec<bool>,
}

impl Model for BlockSet {
    ghost use Rattle.std.specs.Prelude.{List, Bool, ◌<◌, ◌^◌, length};

    ghost Value = { List Bool };

    ghost view = { λ s. s.blocks.items };

    ghost invariant = { λ s. length s.blocks.items < 2 ^ 32 };
}

impl BlockSet {
    /// The empty set of numbers below `size`.
    pub fn new(alloc: Global, size: u32) -> Result<BlockSet, AllocError>
        ensures { IfOk result (λ set. set ≡ no_blocks size) }
    {
        Ok(BlockSet {
            alloc,
            blocks: vec![in alloc; false; size as usize]?,
        })
    }

    /// Puts the numbers of a span in.
    pub fn insert_range(&mut self, span: Span)
        requires { span.first + span.count ≤ length self.old }
        ensures { self.new ≡ with_span self.old span }
    {
        put_all(&mut self.blocks, span, true);
    }

    /// Takes the numbers of a span out.
    pub fn remove_range(&mut self, span: Span)
        requires { span.first + span.count ≤ length self.old }
        ensures { self.new ≡ without_span self.old span }
    {
        put_all(&mut self.blocks, span, false);
    }

    /// Whether a number is in the set.
    pub fn has(&self, block: u32) -> bool
        ensures { result ≡ has self.now block }
    {
        match self.blocks.get(block as usize) {
            Some(there) => *there,
            None => false,
        }
    }

    /// How many numbers are in the set.
    pub fn count(&self) -> u32
        ensures { result ≡ count_of self.now }
    {
        let blocks = self.blocks.as_slice();
        count_true(blocks) as u32
    }

    /// The lowest number of the set in a span.
    pub fn first_in(&self, span: Span) -> Option<u32>
        requires { span.first + span.count ≤ length self.now }
        ensures { result ≡ first_within self.now span }
    {
        lowest_in(self.blocks.as_slice(), span)
    }

    /// The maximal runs of the set, ascending.
    pub fn ranges(&self) -> Result<Row<Span>, AllocError>
        ensures { IfOk result (λ runs. runs ≡ ranges_of self.now) }
    {
        Ok(Row::new(runs_in(self.alloc, self.blocks.as_slice())?))
    }
}

// Writes one truth value to the places of a span.
fn put_all(blocks: &mut Vec<bool>, span: Span, value: bool)
    requires { span.first + span.count ≤ length blocks.old.items }
    ensures len { length blocks.new.items ≡ length blocks.old.items }
    ensures inside { (k : ℕ) → span.first ≤ k → k < span.first + span.count → has blocks.new.items k ≡ value }
    ensures below { (k : ℕ) → k < span.first → has blocks.new.items k ≡ has blocks.old.items k }
    ensures above { (k : ℕ) → span.first + span.count ≤ k → has blocks.new.items k ≡ has blocks.old.items k }
{
    let first = span.first as usize;
    for block in first..first + span.count as usize {
        blocks[block] = value;
    }
}

// The lowest number of a span whose value is true.
fn lowest_in(blocks: &[bool], span: Span) -> Option<u32>
    requires fits { length blocks.now < 2 ^ 32 }
    requires inside { span.first + span.count ≤ length blocks.now }
    ensures { result ≡ first_within blocks.now span }
{
    for block in span.first..span.first + span.count {
        if blocks[block as usize] {
            return Some(block);
        }
    }
    None
}

fn count_true(blocks: &[bool]) -> usize
    ensures { result ≡ length (filter (λ there. there) blocks.now) }
{
    blocks.iter().filter(|there| **there).count()
}
