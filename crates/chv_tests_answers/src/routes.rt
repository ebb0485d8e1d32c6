// Where accesses of instructions go (`chv_bus`).
ghost use Rattle.std.specs.Prelude.{◌≡◌, true, IfOk};
ghost use Rattle.chv_addr.specs.AddressMap.{is_within_limits};
ghost use Rattle.chv_defs_guest.specs.Instruction.{CanBeRun, is_asking};
ghost use Rattle.chv_defs_guest.specs.Slices.{IsMapOfZones};

use crate::answers::allocated;
use crate::json::read_config;
use crate::steps::{can_step, cpu_of, script_of};
use crate::words::cut;
use chv_addr::{AddrMap, checked_zones_fit};
use chv_bus::{Route, route};
use chv_config::check;
use chv_defs_api::{Checked, CpuNote, RegAccess, VmConfig};
use chv_defs_base::Row;
use chv_defs_scene::Script;
use chv_vcpu::{Want, step};
use std::alloc::{AllocError, Global};
use std::io;

/// `route BODY REGISTERS LINE`: where the access of an instruction goes in a machine of the configuration in a body.
pub fn access(alloc: Global, words: &str) -> io::Result<String> {
    let (body, behind) = cut(words, ' ');
    let (registers, lines) = cut(behind, ' ');
    let mut cpu = cpu_of("0", "1", registers)?;
    let map = map_of(alloc, body)?;
    let script = script_of(alloc, lines)?;
    let shown = went(alloc, &map, &mut cpu, &script);
    drop(script);
    drop(map);
    allocated(shown)
}

fn went(
    alloc: Global,
    map: &AddrMap,
    cpu: &mut CpuNote,
    script: &Script,
) -> Result<String, AllocError>
    requires { CanBeRun script.now.lines }
{
    if !can_step(cpu) {
        return String::from_str(alloc, "cannot step");
    }
    let want = step(alloc, cpu, script)?;
    let shown = routed(alloc, map, &want);
    drop(want);
    shown
}

fn routed(alloc: Global, map: &AddrMap, want: &Want) -> Result<String, AllocError> {
    if asks(want) {
        route_text(alloc, route(map, want))
    } else {
        String::from_str(alloc, "no access")
    }
}

fn asks(want: &Want) -> bool
    ensures { result ≡ is_asking want.now }
{
    match want {
        Want::Nothing => false,
        Want::Halted => false,
        _ => true,
    }
}

/// The address map of the configuration in a body, without disks that stand by.
pub fn map_of(alloc: Global, body: &str) -> io::Result<AddrMap>
    ensures { IfOk result IsMapOfZones }
{
    let config = read_config(alloc, body)?;
    let checked = checked_of(alloc, &config);
    drop(config);
    let checked = checked?;
    let map = built(alloc, &checked);
    drop(checked);
    Ok(map?)
}

fn built(alloc: Global, checked: &Checked) -> Result<AddrMap, AllocError>
    requires { is_within_limits checked.now.zones ≡ true }
    ensures { IfOk result IsMapOfZones }
{
    match AddrMap::build(alloc, checked) {
        Ok(map) => Ok(map),
        Err(error) => Err(error),
    }
}

fn checked_of(alloc: Global, config: &VmConfig) -> io::Result<Checked>
    ensures { IfOk result (λ checked. is_within_limits checked.zones ≡ true) }
{
    match check(alloc, config, &Row::empty(alloc))? {
        Ok(checked) => {
            checked_zones_fit(&checked);
            Ok(checked)
        }
        Err(rule) => Err(io::Error::other(rule.name())),
    }
}

fn route_text(alloc: Global, route: Route) -> Result<String, AllocError> {
    match route {
        Route::Ram {
            zone,
            block,
            offset,
        } => format!(in alloc; "memory {zone} {block} 0x{offset:x}"),
        Route::Control(made) => register_text(alloc, made),
        Route::Ones => String::from_str(alloc, "ones"),
        Route::Drop => String::from_str(alloc, "dropped"),
        Route::Bad => String::from_str(alloc, "bad"),
    }
}

fn register_text(alloc: Global, made: RegAccess) -> Result<String, AllocError> {
    match made {
        RegAccess::In { width, port } => format!(in alloc; "in {width} 0x{port:x}"),
        RegAccess::Out { width, port, value } => {
            format!(in alloc; "out {width} 0x{port:x} 0x{value:x}")
        }
        RegAccess::MmioRead { width, addr } => format!(in alloc; "read {width} 0x{addr:x}"),
        RegAccess::MmioWrite { width, addr, value } => {
            format!(in alloc; "write {width} 0x{addr:x} 0x{value:x}")
        }
    }
}
