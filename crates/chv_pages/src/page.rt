// A page of 4,096 bytes.
ghost use Rattle.std.specs.Prelude.{◌≡◌, ◌+◌, ◌≤◌, IfOk, length, true};
ghost use Rattle.chv_defs_memory.specs.PageContents.{is_blank};
ghost use Rattle.chv_pages.specs.Copies.{CopiedAt};

use crate::copies::copy_at;
use chv_defs_base::PAGE_BYTES;
use std::alloc::{AllocError, Global};
use std::marker::Model;

/// A page of 4,096 bytes. Contracts see the list of its bytes.
#[derive(Drop)]
pub struct Page {
    bytes: Vec<u8>,
}

impl Model for Page {
    ghost use Rattle.std.specs.Prelude.{◌≡◌, List, ℕ, length};

    ghost Value = { List ℕ };

    ghost view = { λ p. p.bytes.items };

    ghost invariant = { λ p. length p.bytes.items ≡ 4096 };
}

impl Page {
    /// A page of zeros.
    pub fn blank(alloc: Global) -> Result<Page, AllocError>
        ensures len { IfOk result (λ page. length page ≡ 4096) }
        ensures blank { IfOk result (λ page. is_blank page ≡ true) }
    {
        Ok(Page {
            bytes: zeros(alloc, PAGE_BYTES)?,
        })
    }

    /// The bytes, borrowed.
    pub fn as_slice(&self) -> &[u8]
        ensures value { result.now ≡ self.now }
        ensures len { length self.now ≡ 4096 }
    {
        self.bytes.as_slice()
    }

    /// Whether the bytes are all zero.
    pub fn is_blank(&self) -> bool
        ensures { result ≡ is_blank self.now }
    {
        are_zero(self.bytes.as_slice())
    }

    /// Writes bytes from a place on.
    pub fn write(&mut self, at: usize, from: &[u8])
        requires { at + length from.now ≤ 4096 }
        ensures copied { CopiedAt self.old self.new at from.now }
        ensures full { length self.new ≡ 4096 }
    {
        copy_at(&mut self.bytes, at, from);
    }
}

fn zeros(alloc: Global, len: usize) -> Result<Vec<u8>, AllocError>
    ensures len { IfOk result (λ bytes. length bytes.items ≡ len) }
    ensures zero { IfOk result (λ bytes. is_blank bytes.items ≡ true) }
{
    vec![in alloc; 0; len]
}

fn are_zero(bytes: &[u8]) -> bool
    ensures { result ≡ is_blank bytes.now }
{
    bytes.iter().all(|byte| *byte == 0)
}
