// What guest memory holds.
ghost use Rattle.std.specs.Prelude.{◌≡◌, ◌+◌, ◌*◌, ◌<◌, ◌≤◌, [], IfOk, OnOk, OnErr, length};
ghost use Rattle.chv_defs_memory.specs.PageContents.{byte_at, bytes_at, pages_of, AreExact, Clears, Contents, Fills, Writes};

use crate::edits::{drop_block, hold_range, put_page, write_held};
use crate::held::Held;
use crate::lists::{blank_pages, count_shown, shown_pages};
use crate::page::Page;
use crate::reads::{number_of, read_held};
use chv_defs_base::{PAGE_BYTES, Row};
use chv_defs_memory::PageAt;
use std::alloc::{AllocError, Global};
use std::marker::Model;

/// The memory of a zone's blocks of 2,097,152 bytes, as pages that are made where they are written. Contracts
/// see one byte for each block and offset, 0 where none was written, and for how many pages room is reserved.
#[derive(Drop)]
pub struct Pages {
    alloc: Global,
    blocks: u32,
    held: Vec<Held>,
    spare: Vec<Page>,
}

impl Model for Pages {
    ghost use Rattle.std.specs.Prelude.{◌*◌, ◌+◌, ◌≤◌, vec_len};
    ghost use Rattle.std.specs.Vec.{vec_capacity};
    ghost use Rattle.chv_defs_memory.specs.PageContents.{Contents};
    ghost use Rattle.chv_pages.specs.HeldPages.{visible, AreHeld};

    ghost Value = { Contents };

    ghost view = { λ m. record { blocks = m.blocks; pages = visible m.held.items; reserved = vec_len m.spare } };

    ghost invariant = { λ m. AreHeld 0 (m.blocks * 512) m.held.items × (vec_len m.held + vec_len m.spare ≤ vec_capacity m.held) };
}

impl Pages {
    /// The memory of a number of blocks, all zero.
    pub fn new(alloc: Global, blocks: u32) -> Result<Pages, AllocError>
        ensures { IfOk result (λ memory. memory ≡ record { blocks = blocks; pages = []; reserved = 0 }) }
    {
        Ok(Pages {
            alloc,
            blocks,
            held: Vec::new(alloc),
            spare: Vec::new(alloc),
        })
    }

    /// Reads bytes of a block from an offset on.
    pub fn read(&self, block: u32, offset: u32, into: &mut [u8])
        requires block { block < self.now.blocks }
        requires inside { offset + length into.old ≤ 2097152 }
        ensures { into.new ≡ bytes_at self.now block offset (length into.old) }
    {
        read_held(self.held.as_slice(), block, offset as usize, into);
    }

    /// Writes bytes of a block from an offset on, or leaves the memory as it was.
    pub fn write(&mut self, block: u32, offset: u32, from: &[u8]) -> Result<(), AllocError>
        requires block { block < self.old.blocks }
        requires inside { offset + length from.now ≤ 2097152 }
        ensures ok { OnOk result (Writes self.old self.new block offset from.now) }
        ensures err { OnErr result (self.new ≡ self.old) }
    {
        let spare = self.spare.len();
        let offset = offset as usize;
        hold_range(self.alloc, &mut self.held, block, offset, from.len(), spare)?;
        write_held(&mut self.held, block, offset, from);
        Ok(())
    }

    /// Reserves room for further pages, or leaves the memory as it was.
    pub fn reserve(&mut self, pages: u32) -> Result<(), AllocError>
        ensures ok { OnOk result (self.new ≡ record self.old { reserved = self.old.reserved + pages }) }
        ensures err { OnErr result (self.new ≡ self.old) }
    {
        let mut more = blank_pages(self.alloc, pages as usize)?;
        self.held.reserve(self.spare.len() + more.len())?;
        self.spare.append(&mut more)
    }

    /// Writes a whole page into room that was reserved.
    pub fn fill(&mut self, block: u32, page: u16, bytes: &[u8])
        requires reserved { 0 < self.old.reserved }
        requires block { block < self.old.blocks }
        requires page { page < 512 }
        requires whole { length bytes.now ≡ 4096 }
        ensures { Fills self.old self.new block page bytes.now }
    {
        match self.spare.pop() {
            Some(mut made) => {
                made.write(0, bytes);
                let number = number_of(block, page as usize * PAGE_BYTES);
                put_page(&mut self.held, number, made);
            }
            None => unreachable!(),
        }
    }

    /// Gives all room back that is reserved.
    pub fn release(&mut self)
        ensures { self.new ≡ record self.old { reserved = 0 } }
    {
        self.spare.clear();
    }

    /// Makes every byte of a block 0, and drops its pages.
    pub fn clear_block(&mut self, block: u32)
        requires { block < self.old.blocks }
        ensures { Clears self.old self.new block }
    {
        drop_block(&mut self.held, block);
    }

    /// Makes every byte of every block 0, and drops all pages.
    pub fn clear(&mut self)
        ensures { self.new ≡ record self.old { pages = [] } }
    {
        self.held.clear();
    }

    /// How many pages are not all zero.
    pub fn count(&self) -> usize
        ensures count { result ≡ length self.now.pages }
        ensures exact { AreExact self.now }
    {
        count_shown(self.held.as_slice())
    }

    /// The pages that are not all zero, ascending by block and page.
    pub fn list(&self) -> Result<Row<PageAt>, AllocError>
        ensures pages { IfOk result (λ pages. pages ≡ pages_of self.now.blocks (byte_at self.now)) }
        ensures exact { AreExact self.now }
    {
        let blocks = self.blocks;
        shown_pages(self.alloc, blocks, self.held.as_slice())
    }
}
