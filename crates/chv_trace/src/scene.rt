// The sections of the scenario that a trace repeats.
ghost use Rattle.std.specs.Prelude.{◌≡◌, ◌≤◌, ◌+◌, ◌++◌, [], IfOk, OnOk, OnErr, codes, flat_map, length, string_bytes, sum_by};
ghost use Rattle.chv_io.specs.Outside.{Rose};
ghost use Rattle.chv_defs_scene.specs.ScriptText.{line_text};
ghost use Rattle.chv_defs_scene.specs.SceneText.{vcpu_section};
ghost use Rattle.chv_defs.specs.TraceText.{scene_part};
ghost use Rattle.chv_trace.specs.Printing.{Adds, BreaksOff, scene_head};

use crate::PrintError;
use crate::lines::{Line, push_lines};
use crate::pieces::push;
use chv_defs::{Line as Instruction, Trace, VcpuSection};
use chv_io::Sink;
use chv_script::{line_text, vcpu_line};
use std::alloc::{AllocError, Global};

/// Adds the first line of a trace, and the sections of its vCPUs behind the line that says how many lines they have. The
/// scenario of the trace makes no disk here.
pub(crate) fn push_scene<K: Sink>(
    alloc: Global,
    out: &mut K,
    buffer: &mut String,
    trace: &Trace,
) -> Result<(), PrintError>
    requires disks { trace.now.disks ≡ [] }
    ensures ok { OnOk result (Adds (K.written out.old) (string_bytes buffer.old) (K.written out.new) (string_bytes buffer.new) (codes "trace 1\n" ++ scene_part trace.now)) }
    ensures part { OnErr result (BreaksOff (K.written out.old) (string_bytes buffer.old) (K.written out.new) (codes "trace 1\n" ++ scene_part trace.now)) }
    ensures cause { result ≡ Err PrintError.Failed → Rose (K.write_faults out.old) (K.write_faults out.new) }
    ensures kept { OnOk result (K.write_faults out.new ≡ K.write_faults out.old) }
    ensures memory { result ≡ Err PrintError.Memory → K.write_faults out.new ≡ K.write_faults out.old }
    ensures later { K.write_faults out.old ≤ K.write_faults out.new }
{
    let vcpus = trace.vcpus.as_slice();
    let head = scene_head(alloc, lines_of(vcpus))?;
    push(out, buffer, head.as_str())?;
    push_vcpus(alloc, out, buffer, vcpus)
}

// How many lines the sections have: each its script, the line before it, and the line that ends it. In 128 bits no sum of
// so many lengths wraps.
fn lines_of(vcpus: &[VcpuSection]) -> u128
    ensures { result ≡ sum_by (λ vcpu. length vcpu.script.lines + 2) vcpus.now }
{
    let mut lines = 0;
    for vcpu in vcpus {
        lines += vcpu.script.lines.len() as u128 + 2;
    }
    lines
}

fn scene_head(alloc: Global, lines: u128) -> Result<String, AllocError>
    ensures { IfOk result (λ head. string_bytes head ≡ scene_head lines) }
{
    format!(in alloc; "trace 1\nscene {lines}\n")
}

fn push_vcpus<K: Sink>(
    alloc: Global,
    out: &mut K,
    buffer: &mut String,
    vcpus: &[VcpuSection],
) -> Result<(), PrintError>
    ensures ok { OnOk result (Adds (K.written out.old) (string_bytes buffer.old) (K.written out.new) (string_bytes buffer.new) (flat_map vcpu_section vcpus.now)) }
    ensures part { OnErr result (BreaksOff (K.written out.old) (string_bytes buffer.old) (K.written out.new) (flat_map vcpu_section vcpus.now)) }
    ensures cause { result ≡ Err PrintError.Failed → Rose (K.write_faults out.old) (K.write_faults out.new) }
    ensures kept { OnOk result (K.write_faults out.new ≡ K.write_faults out.old) }
    ensures memory { result ≡ Err PrintError.Memory → K.write_faults out.new ≡ K.write_faults out.old }
    ensures later { K.write_faults out.old ≤ K.write_faults out.new }
{
    for vcpu in vcpus {
        push_vcpu(alloc, out, buffer, vcpu)?;
    }
    Ok(())
}

// The section of a vCPU, instruction by instruction.
fn push_vcpu<K: Sink>(
    alloc: Global,
    out: &mut K,
    buffer: &mut String,
    vcpu: &VcpuSection,
) -> Result<(), PrintError>
    ensures ok { OnOk result (Adds (K.written out.old) (string_bytes buffer.old) (K.written out.new) (string_bytes buffer.new) (vcpu_section vcpu.now)) }
    ensures part { OnErr result (BreaksOff (K.written out.old) (string_bytes buffer.old) (K.written out.new) (vcpu_section vcpu.now)) }
    ensures cause { result ≡ Err PrintError.Failed → Rose (K.write_faults out.old) (K.write_faults out.new) }
    ensures kept { OnOk result (K.write_faults out.new ≡ K.write_faults out.old) }
    ensures memory { result ≡ Err PrintError.Memory → K.write_faults out.new ≡ K.write_faults out.old }
    ensures later { K.write_faults out.old ≤ K.write_faults out.new }
{
    let head = vcpu_line(alloc, vcpu.vcpu, vcpu.fuel)?;
    push(out, buffer, head.as_str())?;
    push_lines(alloc, out, buffer, vcpu.script.lines.as_slice())?;
    push(out, buffer, "end\n")
}

impl Line for Instruction {
    ghost text = { λ instruction. line_text instruction ++ codes "\n" };

    fn line(&self, alloc: Global) -> Result<String, AllocError> {
        let mut line = line_text(alloc, self)?;
        line.push_str("\n")?;
        Ok(line)
    }
}
