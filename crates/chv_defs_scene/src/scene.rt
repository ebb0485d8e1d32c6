// Scripts of vCPUs, and scenarios.
use chv_defs_base::{Bytes, Name, Row, Text};

/// A disk that a scenario makes, in sectors of 512 bytes. It begins with zeros.
#[derive(Drop)]
pub struct MadeDisk {
    pub name: Name,
    pub sectors: u64,
}

/// The script of a vCPU, and how many instructions it may execute.
#[derive(Drop)]
pub struct VcpuSection {
    pub vcpu: u8,
    pub fuel: u64,
    pub script: Script,
}

/// A script: one instruction a line.
#[derive(Drop)]
pub struct Script {
    pub lines: Row<Line>,
}

/// An instruction. Registers are numbers from 0 to 15; widths are in bytes.
#[derive(Drop)]
pub enum Line {
    /// A label.
    At(Text),
    Set {
        rd: u8,
        value: u64,
    },
    Mov {
        rd: u8,
        ra: u8,
    },
    Math {
        op: MathOp,
        rd: u8,
        ra: u8,
        rb: u8,
    },
    Ld {
        width: u8,
        rd: u8,
        ra: u8,
        offset: u64,
    },
    St {
        width: u8,
        rs: u8,
        ra: u8,
        offset: u64,
    },
    Put {
        ra: u8,
        bytes: Bytes,
    },
    In {
        width: u8,
        rd: u8,
        port: u16,
    },
    Out {
        width: u8,
        rs: u8,
        port: u16,
    },
    Jmp(Text),
    Jz {
        ra: u8,
        to: Text,
    },
    Jnz {
        ra: u8,
        to: Text,
    },
    /// Jumps where ra is below rb, both unsigned.
    Jlt {
        ra: u8,
        rb: u8,
        to: Text,
    },
    Halt,
}

/// An operation on registers, modulo 2^64.
#[derive(Clone, Copy)]
pub enum MathOp {
    Add,
    Sub,
    And,
    Or,
    Xor,
}

/// A scenario: disks, scripts, the requests of each session, and the steps that the schedule makes first.
#[derive(Drop)]
pub struct Scene {
    pub disks: Row<MadeDisk>,
    pub vcpus: Row<VcpuSection>,
    pub sessions: Row<Row<Asked>>,
    pub order: Option<Row<OrderStep>>,
}

/// A request of a session: by the route's name, or the bytes of the stream themselves.
#[derive(Drop)]
pub enum Asked {
    Get(Text),
    Put { name: Text, body: Option<Bytes> },
    Raw(Bytes),
}

/// A step of the schedule: the next request of a session, a slice of a vCPU, or a queue slice.
#[derive(Clone, Copy)]
pub enum OrderStep {
    Session(u64),
    Vcpu(u64),
    Queue,
}
