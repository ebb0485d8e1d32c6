// Lists of pages.
ghost use Rattle.std.specs.Prelude.{◌≡◌, ◌*◌, ◌/◌, ◌%◌, ◌<◌, ◌^◌, IfOk, length, vec_len};
ghost use Rattle.chv_pages.specs.HeldPages.{visible, AreHeld};

use crate::held::Held;
use crate::page::Page;
use chv_defs_base::{Bytes, Row};
use chv_defs_memory::PageAt;
use std::alloc::{AllocError, Global};

/// A number of pages of zeros.
pub fn blank_pages(alloc: Global, count: usize) -> Result<Vec<Page>, AllocError>
    ensures { IfOk result (λ pages. vec_len pages ≡ count) }
{
    let mut pages = Vec::new(alloc);
    while pages.len() < count {
        pages.push(Page::blank(alloc)?)?;
    }
    Ok(pages)
}

/// The pages of a number of blocks that are not all zero, in their order.
pub fn shown_pages(alloc: Global, blocks: u32, held: &[Held]) -> Result<Row<PageAt>, AllocError>
    requires { AreHeld 0 (blocks * 512) held.now }
    ensures { IfOk result (λ pages. pages ≡ visible held.now) }
{
    let mut pages = Row::empty(alloc);
    for h in held {
        if !h.page.is_blank() {
            pages.push(shown(alloc, h)?)?;
        }
    }
    Ok(pages)
}

/// How many pages are not all zero.
pub fn count_shown(held: &[Held]) -> usize
    ensures { result ≡ length (visible held.now) }
{
    let mut count = 0;
    for h in held {
        if h.page.is_blank() {
            continue;
        }
        count += 1;
    }
    count
}

// A page as it is shown.
fn shown(alloc: Global, held: &Held) -> Result<PageAt, AllocError>
    requires { held.now.number < 2 ^ 32 * 512 }
    ensures { IfOk result (λ page. page ≡ record { block = held.now.number / 512; page = held.now.number % 512; bytes = held.now.page }) }
{
    Ok(PageAt {
        block: (held.number / 512) as u32,
        page: (held.number % 512) as u16,
        bytes: Bytes::of(alloc, held.page.as_slice())?,
    })
}
