// Where a slice ends.
use chv_defs_api::{SliceEnd, StopCause};

/// How a slice ends, and the cause for which the run stops, where it does.
#[derive(Clone, Copy)]
pub(crate) struct Cut {
    pub(crate) end: SliceEnd,
    pub(crate) cause: Option<StopCause>,
}
