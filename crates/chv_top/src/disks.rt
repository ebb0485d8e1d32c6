// The disks that are handed in, as the control value has them, and back.
ghost use Rattle.std.specs.Prelude.{◌≡◌, ◌≤◌, [], length, IfOk, IfErr};
ghost use Rattle.std.specs.Vec.{vec_capacity};
ghost use Rattle.chv_top.specs.Given.{as_given, handed_in};

use chv_defs::Name;
use chv_store::AnyDisk;
use std::alloc::Global;

/// Disks that were handed in, as the control value has them.
type Given<D> = Vec<(Name, AnyDisk<D>)>;

/// The disks as the control value has them, and an empty list with room to hand them back. An `Err` hands the disks back:
/// there is no memory.
pub fn given<D: Drop>(
    alloc: Global,
    disks: Vec<(Name, D)>,
) -> Result<(Given<D>, Vec<(Name, D)>), Vec<(Name, D)>>
    ensures ok { IfOk result (λ both. (both.0.items ≡ as_given disks.items) × (both.1.items ≡ []) × (length disks.items ≤ vec_capacity both.1)) }
    ensures err { IfErr result (λ back. back.items ≡ disks.items) }
{
    let Ok(mut given) = Vec::with_capacity(alloc, disks.len()) else {
        return Err(disks);
    };
    let Ok(back) = Vec::with_capacity(alloc, disks.len()) else {
        return Err(disks);
    };
    for (name, disk) in disks {
        given.push((name, AnyDisk::Given(disk))).unwrap();
    }
    Ok((given, back))
}

/// The disks that were handed in, moved into a list that has room for them. Takes no memory.
pub fn handed_back<D: Drop>(disks: Given<D>, mut back: Vec<(Name, D)>) -> Vec<(Name, D)>
    requires empty { back.items ≡ [] }
    requires room { length disks.items ≤ vec_capacity back }
    ensures { result.items ≡ handed_in disks.items }
{
    for (name, disk) in disks {
        match disk {
            AnyDisk::Given(disk) => back.push((name, disk)).unwrap(),
            AnyDisk::Made(_) => {}
        }
    }
    back
}
