// Laws of the owner's calls. Each is the contract of a function that does nothing.
ghost use Rattle.chv_defs_control.specs.OwnerCalls.{BootOpensTheBootBlocks, WipeClosesAll};

/// Behind the owner's calls of a boot exactly the boot blocks of each zone in effect are open.
pub fn boot_opens_the_boot_blocks()
    ensures { BootOpensTheBootBlocks }
{}

/// Behind those of a shutdown, and behind those of a delete, no block of a zone in effect is open.
pub fn wipe_closes_all()
    ensures { WipeClosesAll }
{}
