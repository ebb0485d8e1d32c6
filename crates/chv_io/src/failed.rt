// The answer of a call that failed.

/// The outside failed. The count of the object that answers so rose in that call.
#[derive(Clone, Copy, PartialEq, Eq)]
pub struct Failed;
