// Types whose clones are equal to their source. Most write their clone out, by what is copied and what can fail: a derived
// one treats each number as a clone that can fail.
ghost use Rattle.std.specs.Prelude.{◌≡◌, IfOk};
ghost use Rattle.std.proofs.Common.{rules};

use crate::BookId;
use std::alloc::AllocError;

/// A type whose clones are equal to their source, as contracts see both.
pub trait Exact: Clone {
    ghost exact: { (x y : Self) → Self.is_clone x y → y ≡ x };
}

/// A clone, which is equal to its source.
pub fn copy_of<T: Exact>(value: &T) -> Result<T, AllocError>
    ensures { IfOk result (λ copy. copy ≡ value.now) }
{
    value.clone()
}

impl Exact for u8 {
    ghost exact = { λ x y h. Prim.search rules };
}

impl Exact for u32 {
    ghost exact = { λ x y h. Prim.search rules };
}

impl Exact for BookId {
    ghost exact = { λ x y h. Prim.search rules };
}
