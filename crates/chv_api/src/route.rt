// The routes by their names, and the control calls that they make.
ghost use Rattle.std.specs.Prelude.{◌≡◌, IfOk, codes};
ghost use Rattle.chv_defs_api.specs.Routes as routes;

use crate::snapshot::snapshot_at;
use chv_defs_api::{ControlCall, Goal};
use chv_defs_base::Rule;
use chv_json::{config_of, disk_of, resize_of, text_of, zone_of};
use std::alloc::{AllocError, Global};

/// The call of a route with GET.
pub(crate) fn get_call(name: &str) -> Result<ControlCall, Rule>
    ensures { result ≡ routes.get_call name.now }
{
    match name {
        "vmm.ping" => Ok(ControlCall::Ping),
        "vm.info" => Ok(ControlCall::Info),
        "vm.counters" => Ok(ControlCall::Counters),
        _ => Err(Rule::NoRoute),
    }
}

/// The call of a route with PUT, or the first rule that its body breaks. A route that needs no body ignores it.
pub(crate) fn put_call(
    alloc: Global,
    name: &str,
    body: &[u8],
) -> Result<Result<ControlCall, Rule>, AllocError>
    ensures { IfOk result (λ call. call ≡ routes.put_call name.now body.now) }
{
    match name {
        "vm.create" => create(alloc, body),
        "vm.delete" => Ok(Ok(ControlCall::Begin(Goal::Delete))),
        "vm.boot" => Ok(Ok(ControlCall::Boot)),
        "vm.shutdown" => Ok(Ok(ControlCall::Begin(Goal::Shutdown))),
        "vm.pause" => Ok(Ok(ControlCall::Begin(Goal::Pause))),
        "vm.resume" => Ok(Ok(ControlCall::Resume)),
        "vm.resize" => resize(alloc, body),
        "vm.resize-zone" => resize_zone(alloc, body),
        "vm.add-disk" => add_disk(alloc, body),
        "vm.remove-device" => remove_device(alloc, body),
        "vm.snapshot" => snapshot(alloc, body),
        "vm.restore" => restore(alloc, body),
        _ => Ok(Err(Rule::NoRoute)),
    }
}

fn create(alloc: Global, body: &[u8]) -> Result<Result<ControlCall, Rule>, AllocError>
    ensures { IfOk result (λ call. call ≡ routes.put_call (codes "vm.create") body.now) }
{
    Ok(config_of(alloc, body)?.map(ControlCall::Create))
}

fn resize(alloc: Global, body: &[u8]) -> Result<Result<ControlCall, Rule>, AllocError>
    ensures { IfOk result (λ call. call ≡ routes.put_call (codes "vm.resize") body.now) }
{
    Ok(resize_of(alloc, body)?.map(|(vcpus, ram)| ControlCall::Resize { vcpus, ram }))
}

fn resize_zone(alloc: Global, body: &[u8]) -> Result<Result<ControlCall, Rule>, AllocError>
    ensures { IfOk result (λ call. call ≡ routes.put_call (codes "vm.resize-zone") body.now) }
{
    Ok(zone_of(alloc, body)?.map(|(zone, ram)| ControlCall::ResizeZone { zone, ram }))
}

fn add_disk(alloc: Global, body: &[u8]) -> Result<Result<ControlCall, Rule>, AllocError>
    ensures { IfOk result (λ call. call ≡ routes.put_call (codes "vm.add-disk") body.now) }
{
    Ok(disk_of(alloc, body)?.map(ControlCall::AddDisk))
}

fn remove_device(alloc: Global, body: &[u8]) -> Result<Result<ControlCall, Rule>, AllocError>
    ensures { IfOk result (λ call. call ≡ routes.put_call (codes "vm.remove-device") body.now) }
{
    Ok(text_of(alloc, body, "id")?.map(ControlCall::Remove))
}

fn snapshot(alloc: Global, body: &[u8]) -> Result<Result<ControlCall, Rule>, AllocError>
    ensures { IfOk result (λ call. call ≡ routes.put_call (codes "vm.snapshot") body.now) }
{
    Ok(snapshot_at(alloc, body, "destination_url")?.map(ControlCall::Snapshot))
}

fn restore(alloc: Global, body: &[u8]) -> Result<Result<ControlCall, Rule>, AllocError>
    ensures { IfOk result (λ call. call ≡ routes.put_call (codes "vm.restore") body.now) }
{
    Ok(snapshot_at(alloc, body, "source_url")?.map(ControlCall::Restore))
}
