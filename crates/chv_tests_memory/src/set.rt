// One small set of each kind. The contracts say the rest.
ghost use Rattle.std.specs.Prelude.{◌+◌, ◌<◌, ◌≤◌};

use chv_defs_memory::Span;
use chv_set::BlockSet;
use chv_tests_steps::step;
use std::alloc::{AllocError, Global};
use std::test::Fail;

// Whether a set has these blocks and none beside them.
fn has_alone(set: &BlockSet, first: u32, count: u32) -> bool
    requires some { 0 < count }
    requires inside { first + count ≤ 32768 }
{
    set.has(first)
        && set.has(first + count - 1)
        && (first == 0 || !set.has(first - 1))
        && !set.has(first + count)
        && set.count() == count
}

// Whether each call says the same of a set of these blocks.
fn is_alone(alloc: Global, first: u32, count: u32) -> Result<bool, AllocError>
    requires some { 0 < count }
    requires inside { first + count ≤ 32768 }
{
    let span = Span { first, count };
    let mut set = BlockSet::new(alloc, 32_768)?;
    set.insert_range(span);
    Ok(has_alone(&set, first, count) && set.ranges()?.as_slice() == [span].as_slice())
}

const WORD: Span = Span {
    first: 0,
    count: 64,
};

const ALL: Span = Span {
    first: 0,
    count: 32_768,
};

// Whether nothing is found in an empty set, and nothing is left of it.
fn is_empty(alloc: Global) -> Result<bool, AllocError> {
    let mut set = BlockSet::new(alloc, 32_768)?;
    let first = set.first_in(WORD);
    set.remove_range(ALL);
    Ok(first == None && set.ranges()?.is_empty())
}

#[test]
fn sets(rt: HostRuntime) -> Result<(), Fail> {
    let alloc = rt.alloc();
    step("block 0", is_alone(alloc, 0, 1)?)?;
    step("block 63", is_alone(alloc, 63, 1)?)?;
    step("block 64", is_alone(alloc, 64, 1)?)?;
    step("block 65", is_alone(alloc, 65, 1)?)?;
    step("block 32,767", is_alone(alloc, 32_767, 1)?)?;
    step("a run across the edge of a word", is_alone(alloc, 63, 3)?)?;
    step("no block", is_empty(alloc)?)
}
