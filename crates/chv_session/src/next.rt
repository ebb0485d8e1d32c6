// What one step of a session came to.
use chv_defs_api::SessionEnd;

/// What one step of a session came to.
#[derive(Clone, Copy, PartialEq, Eq)]
pub enum Next {
    /// A request was answered, or bytes that a rule refuses. The session is not at its end.
    Answered,
    /// The session has ended so.
    Ended(SessionEnd),
}
