// The sections of scenarios, which their traces repeat.
use chv_defs::{Row, Scene, VcpuSection};
use chv_scene::{SceneFault, read};
use chv_tests_answers::{allocated, bytes_of, found};
use std::alloc::Global;
use std::io;

const MOST: usize = 1 << 24;

/// The sections of vCPUs of a scenario.
pub fn vcpus_of(alloc: Global, scenario: &str) -> io::Result<Row<VcpuSection>> {
    let text = bytes_of(alloc, scenario)?;
    if MOST < text.len() {
        return Err(io::Error::other("the scenario of the case is too long"));
    }
    let scene = read(alloc, text.as_slice());
    drop(text);
    found(vcpus_in(allocated(scene)?))
}

// The sections of vCPUs of a scenario that was read.
fn vcpus_in(scene: Result<Scene, SceneFault>) -> Option<Row<VcpuSection>> {
    match scene {
        Ok(scene) => Some(scene.vcpus),
        Err(_) => None,
    }
}
