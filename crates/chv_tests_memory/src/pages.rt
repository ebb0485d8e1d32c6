// Reads and writes across the edges of pages, and pages that are filled, cleared and listed.
ghost use Rattle.std.specs.Prelude.{◌≡◌, ◌+◌, ◌<◌, ◌≤◌, IfOk, length};

use chv_defs_memory::PageAt;
use chv_pages::Pages;
use chv_tests_steps::step;
use std::alloc::{AllocError, Global};
use std::test::Fail;

/// A page that is zero but for one byte: its block, its number, and where which byte stands.
pub type Page = (u32, u16, usize, u8);

/// Whether a page is this one.
pub fn is_page(page: &PageAt, want: &Page) -> bool {
    page.block == want.0
        && page.page == want.1
        && page.bytes.len() == 4096
        && is_zero_but(page.bytes.as_slice(), want.2, want.3)
}

fn is_zero_but(bytes: &[u8], at: usize, byte: u8) -> bool {
    for (k, b) in bytes.iter().enumerate() {
        if *b != if k == at { byte } else { 0 } {
            return false;
        }
    }
    true
}

/// Whether these pages are listed and no others.
fn lists(memory: &Pages, pages: &[Page]) -> Result<bool, AllocError> {
    let listed = memory.list()?;
    for (page, want) in listed.as_slice().iter().zip(pages) {
        if !is_page(page, want) {
            return Ok(false);
        }
    }
    Ok(listed.len() == pages.len())
}

/// Whether four bytes stand from an offset on.
fn has_four(memory: &Pages, block: u32, offset: u32, four: [u8; 4]) -> bool
    requires block { block < memory.now.blocks }
    requires inside { offset + 4 ≤ 2097152 }
{
    let mut read = [9; 4];
    memory.read(block, offset, &mut read);
    read == four
}

fn write(memory: &mut Pages) -> Result<(), AllocError>
    requires { memory.old.blocks ≡ 2 }
    ensures { IfOk result (λ _. memory.new.blocks ≡ 2) }
{
    memory.write(1, 4_095, &[1, 2])?;
    memory.write(0, 2_097_151, &[3])?;
    memory.write(0, 8_192, &[0, 0])
}

const WRITTEN: [Page; 3] = [(0, 511, 4_095, 3), (1, 0, 4_095, 1), (1, 1, 0, 2)];

fn writes(memory: &mut Pages) -> Result<(), Fail>
    requires { memory.old.blocks ≡ 2 }
{
    step(
        "write: zero before",
        has_four(memory, 1, 2_097_148, [0, 0, 0, 0]),
    )?;
    write(memory)?;
    step(
        "write: across two pages",
        has_four(memory, 1, 4_094, [0, 1, 2, 0]),
    )?;
    step("write: the pages that are listed", lists(memory, &WRITTEN)?)?;
    memory.clear_block(1);
    step(
        "clear: zero again",
        has_four(memory, 1, 4_094, [0, 0, 0, 0]),
    )?;
    step(
        "clear: the page of the other block",
        memory.list()?.len() == 1,
    )
}

/// Fills a page with a byte among zeros.
fn fill(alloc: Global, memory: &mut Pages) -> Result<(), AllocError>
    requires { memory.old.blocks ≡ 1 }
    ensures { IfOk result (λ _. memory.new.blocks ≡ 1) }
{
    let mut bytes = vec![in alloc; 0; 4096]?;
    bytes[7] = 5;
    memory.reserve(2)?;
    memory.fill(0, 3, bytes.as_slice());
    Ok(())
}

fn fills(alloc: Global, memory: &mut Pages) -> Result<(), Fail>
    requires { memory.old.blocks ≡ 1 }
{
    fill(alloc, memory)?;
    step("fill: the bytes", has_four(memory, 0, 12_295, [5, 0, 0, 0]))?;
    memory.release();
    step(
        "fill: the page that is listed",
        lists(memory, &[(0, 3, 7, 5)])?,
    )
}

#[test]
fn pages(rt: HostRuntime) -> Result<(), Fail> {
    let mut memory = Pages::new(rt.alloc(), 2)?;
    writes(&mut memory)?;
    let mut memory = Pages::new(rt.alloc(), 1)?;
    fills(rt.alloc(), &mut memory)?;
    Ok(())
}
