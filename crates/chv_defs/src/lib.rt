//! The schedule, traces and the program's lines. It hands on the types of the lower rooms.
#![tactic(auto)]

mod trace;

pub use chv_defs_api::{
    BusyAt, Checked, ContextNote, ControlCall, ControlEntry, ControlReply, CountOf, CpuConfig,
    CpuNote, Desk, DeviceInfo, DeviceKind, DiskConfig, DiskCount, Goal, HandNote, Hotplug, Info,
    MemAnswer, MemConfig, MemRequest, OnShelf, QueueFault, QueueNote, RegAccess, Request, Role,
    SessionEnd, SessionLog, ShownState, SliceEnd, StopCause, Stopped, Took, VmConfig, ZoneConfig,
    ZoneInfo, last_component,
};
pub use chv_defs_base::{
    BLOCK_BYTES, BookId, Bytes, Exact, Full, MOST_ENTRIES, MOST_PAYLOAD, MOST_ZONES, Name,
    PAGE_BYTES, Reason, Row, Rule, SLOTS, Text, beside, copy_of, is_name,
};
pub use chv_defs_control::{Life, Machine};
pub use chv_defs_memory::{
    BANKS, BankCall, BankEntry, BankReply, Banked, PageAt, Refusal, Span, Zones,
};
pub use chv_defs_scene::{Asked, Line, MadeDisk, MathOp, OrderStep, Scene, Script, VcpuSection};
pub use trace::{BankTrace, SessionTrace, Trace};
