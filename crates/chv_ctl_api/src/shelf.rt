// The names of the disks that stand by.
ghost use Rattle.std.specs.Prelude.{◌≡◌, IfOk};
ghost use Rattle.chv_defs_control.specs.ApiStep.{names_of};

use chv_defs_api::OnShelf;
use chv_defs_base::{Name, Row, copy_of};
use std::alloc::{AllocError, Global};

/// The names of the disks that stand by, in order.
pub fn names_of(alloc: Global, shelf: &Row<OnShelf>) -> Result<Row<Name>, AllocError>
    ensures { IfOk result (λ names. names ≡ names_of shelf.now) }
{
    let mut names = Row::empty(alloc);
    for disk in shelf.as_slice() {
        names.push(copy_of(&disk.name)?)?;
    }
    Ok(names)
}
