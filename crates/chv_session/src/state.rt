// Where a session stands.
use chv_defs_api::SessionEnd;

/// Where a session stands, as contracts see it.
#[derive(Clone, Copy)]
pub enum State {
    /// It takes requests.
    Open,
    /// It answered a last request, or bytes that a rule refuses, and has its Bye to make: it will end so.
    Leaving(SessionEnd),
    /// It has ended so.
    Ended(SessionEnd),
    /// It met want of memory.
    Lost,
}
