// Room for copies of pages.
ghost use Rattle.std.specs.Prelude.{◌≡◌, ◌+◌, ◌<◌, ◌≤◌, IfOk, length, vec_len};
ghost use Rattle.std.specs.Vec.{vec_capacity};

use chv_defs_base::{Bytes, PAGE_BYTES};
use std::alloc::{AllocError, Global};
use std::marker::Model;

/// Sheets: each has room for the bytes of one page. Contracts see how many there are.
#[derive(Drop)]
pub struct Sheets {
    sheets: Vec<Sheet>,
}

impl Model for Sheets {
    ghost use Rattle.std.specs.Prelude.{ℕ, vec_len};

    ghost Value = { ℕ };

    ghost view = { λ s. vec_len s.sheets };
}

// An empty list of bytes with room for a page.
#[derive(Drop)]
struct Sheet {
    bytes: Vec<u8>,
    ghost empty: { vec_len bytes ≡ 0 },
    ghost room: { 4096 ≤ vec_capacity bytes },
}

impl Sheets {
    /// A number of sheets.
    pub fn new(alloc: Global, count: u32) -> Result<Sheets, AllocError>
        ensures { IfOk result (λ sheets. sheets ≡ count) }
    {
        let sheets = some_sheets(alloc, count as usize)?;
        Ok(Sheets { sheets })
    }

    /// No sheet. Takes no memory.
    pub fn none(alloc: Global) -> Sheets
        ensures { result ≡ 0 }
    {
        Sheets {
            sheets: Vec::new(alloc),
        }
    }

    /// How many sheets there are.
    pub fn len(&self) -> usize
        ensures { result ≡ self.now }
    {
        self.sheets.len()
    }

    /// A copy of the bytes of a page, for which a sheet is used. Takes no memory.
    pub fn copy(&mut self, from: &[u8]) -> Bytes
        requires some { 0 < self.old }
        requires page { length from.now ≤ 4096 }
        ensures copied { result ≡ from.now }
        ensures used { self.new + 1 ≡ self.old }
    {
        match self.sheets.pop() {
            Some(sheet) => written(sheet, from),
            None => unreachable!(),
        }
    }

    /// Gives all sheets back.
    pub fn clear(&mut self)
        ensures { self.new ≡ 0 }
    {
        self.sheets.clear();
    }
}

fn some_sheets(alloc: Global, count: usize) -> Result<Vec<Sheet>, AllocError>
    ensures { IfOk result (λ sheets. vec_len sheets ≡ count) }
{
    let mut sheets = Vec::new(alloc);
    while sheets.len() < count {
        let bytes = Vec::with_capacity(alloc, PAGE_BYTES)?;
        sheets.push(Sheet { bytes })?;
    }
    Ok(sheets)
}

// The bytes, written onto a sheet.
fn written(sheet: Sheet, from: &[u8]) -> Bytes
    requires { length from.now ≤ 4096 }
    ensures { result ≡ from.now }
{
    let mut bytes = sheet.bytes;
    match bytes.extend_from_slice(from) {
        Ok(()) => Bytes::new(bytes),
        Err(_) => unreachable!(),
    }
}
