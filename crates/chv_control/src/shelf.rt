// What is known of the disks that stand by.
ghost use Rattle.std.specs.Prelude.{◌≡◌, IfOk};
ghost use Rattle.chv_control.specs.Shelf.{sectors_of, shelf_of};

use chv_defs_api::OnShelf;
use chv_defs_base::{Name, Row, copy_of};
use chv_io::Disk;
use chv_store::AnyDisk;
use std::alloc::{AllocError, Global};

/// The name and the number of sectors of each disk, in order.
pub fn shelf_of<D: Disk>(
    alloc: Global,
    disks: &[(Name, AnyDisk<D>)],
) -> Result<Row<OnShelf>, AllocError>
    ensures { IfOk result (λ shelf. shelf ≡ shelf_of (sectors_of D.sector_count) disks.now) }
{
    let mut shelf = Row::empty(alloc);
    for (name, disk) in disks {
        shelf.push(OnShelf {
            name: copy_of(name)?,
            sectors: disk.sectors(),
        })?;
    }
    Ok(shelf)
}
