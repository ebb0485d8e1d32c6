//! Scenarios and scripts, and the definitions of their texts.
#![tactic(auto)]

mod scene;

pub use scene::{Asked, Line, MadeDisk, MathOp, OrderStep, Scene, Script, VcpuSection};
