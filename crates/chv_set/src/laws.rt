// Laws of the definitions.
ghost use Rattle.chv_defs_memory.specs.BlockSets.{AreRuns, ranges_of};

use crate::BlockSet;

/// The ranges of a set ascend, none is empty, no two touch, and together they are the set.
pub fn ranges_are_maximal_runs(set: &BlockSet)
    ensures { AreRuns set.now (ranges_of set.now) }
{}
