// Accesses of a vCPU to ports and device windows.
ghost use Rattle.std.specs.Prelude.{◌≡◌, IfOk, string_bytes};
ghost use Rattle.chv_defs.specs.TraceText as text;

use chv_defs::RegAccess;
use std::alloc::{AllocError, Global};

/// An access, with the number of its context.
#[tactic(auto, using(crate::proofs::Joined::regrouped))]
pub(crate) fn access_text(
    alloc: Global,
    context: u32,
    access: RegAccess,
) -> Result<String, AllocError>
    ensures { IfOk result (λ shown. string_bytes shown ≡ text.access_text context access) }
{
    match access {
        RegAccess::In { width, port } => format!(in alloc; "in {context} {width} 0x{port:x}"),
        RegAccess::Out { width, port, value } => format!(in alloc;
            "out {context} {width} 0x{port:x} 0x{value:x}"
        ),
        RegAccess::MmioRead { width, addr } => format!(in alloc;
            "mmr {context} {width} 0x{addr:x}"
        ),
        RegAccess::MmioWrite { width, addr, value } => format!(in alloc;
            "mmw {context} {width} 0x{addr:x} 0x{value:x}"
        ),
    }
}
