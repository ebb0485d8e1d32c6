// What a session leaves.
use chv_defs_base::Bytes;

/// How a session ends.
#[derive(Clone, Copy, PartialEq, Eq)]
pub enum SessionEnd {
    /// The stream ended at a request's edge.
    Ended,
    /// The stream ended inside a request.
    Cut,
    /// A head was refused.
    Bad,
    /// A last request was answered: of version 1.0, or one that asks to close.
    Closed,
    /// The connection failed.
    Fault,
    /// 67,108,864 bytes were taken, and every whole request in them was answered.
    Limit,
    /// The run stopped.
    Stopped,
}

/// The bytes that a session took, the replies that were put, and how it ended.
#[derive(Drop)]
pub struct SessionLog {
    pub asked: Bytes,
    pub replied: Bytes,
    pub end: SessionEnd,
}
