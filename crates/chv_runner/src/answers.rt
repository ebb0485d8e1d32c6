// What an answer comes to: the instruction is settled, and the slice goes on, or the slice ends before the instruction.
ghost use Rattle.std.specs.Prelude.{◌≡◌, true, length, Ok, Err};
ghost use Rattle.chv_defs_base.specs.Numbers.{is_width, le_number};
ghost use Rattle.chv_defs_api.specs.declared.context.CpuNote.{CpuNote};
ghost use Rattle.chv_defs_api.specs.declared.context.SliceEnd.TheVariants as end;
ghost use Rattle.chv_defs_guest.specs.declared.want.Want.{Want};
ghost use Rattle.chv_defs_guest.specs.declared.want.Got.TheVariants as got;
ghost use Rattle.chv_defs_guest.specs.Course.{access_cause, outcome_cause, Course, Ends};
ghost use Rattle.chv_defs_guest.specs.Instruction.{CanSettle, settled};
ghost use Rattle.chv_defs_guest.specs.VcpuCourse.{behind_access, behind_ask, got_of_bank, got_of_control, on_or_end};
ghost use Rattle.chv_runner.specs.Cuts.{end_of, why_of, HasWidth};

use crate::cut::Cut;
use chv_defs_api::{ControlReply, CpuNote, SliceEnd, StopCause, Stopped};
use chv_defs_base::BookId;
use chv_defs_guest::{Got, Want};
use chv_defs_memory::{BankReply, Refusal};
use chv_num::get_le;
use chv_vcpu::settle;
use std::alloc::AllocError;

/// Behind an access in a bank.
pub(crate) fn behind_access(
    cpu: &mut CpuNote,
    want: &Want,
    zone: u8,
    bank: u8,
    came: &Result<Result<BankReply, Refusal>, AllocError>,
) -> Option<Cut>
    requires can { CanSettle want.now cpu.old }
    requires wide { HasWidth came.now }
    ensures course { (on : CpuNote → Course CpuNote) → behind_access on cpu.old want.now zone bank came.now ≡ on_or_end on cpu.new (end_of result) }
    ensures cause { why_of result ≡ access_cause came.now }
    ensures vcpu { cpu.new.vcpu ≡ cpu.old.vcpu }
{
    match came {
        Ok(answer) => behind_answer(cpu, want, zone, bank, answer),
        Err(_) => Some(stopped(Some(StopCause::Memory))),
    }
}

// Behind an access that was replied to or refused.
fn behind_answer(
    cpu: &mut CpuNote,
    want: &Want,
    zone: u8,
    bank: u8,
    answer: &Result<BankReply, Refusal>,
) -> Option<Cut>
    requires can { CanSettle want.now cpu.old }
    requires wide { HasWidth (Ok answer.now) }
    ensures course { (on : CpuNote → Course CpuNote) → behind_access on cpu.old want.now zone bank (Ok answer.now) ≡ on_or_end on cpu.new (end_of result) }
    ensures cause { why_of result ≡ access_cause (Ok answer.now) }
    ensures vcpu { cpu.new.vcpu ≡ cpu.old.vcpu }
{
    match answer {
        Ok(reply) => {
            settle_with(cpu, want, got_of_bank(reply));
            None
        }
        Err(why) => Some(refused(zone, bank, why)),
    }
}

/// Behind a register access.
pub(crate) fn behind_ask(
    cpu: &mut CpuNote,
    want: &Want,
    came: &Result<Result<ControlReply, Stopped>, AllocError>,
) -> Option<Cut>
    requires can { CanSettle want.now cpu.old }
    ensures course { (on : CpuNote → Course CpuNote) → behind_ask on cpu.old want.now came.now ≡ on_or_end on cpu.new (end_of result) }
    ensures cause { why_of result ≡ outcome_cause came.now }
    ensures vcpu { cpu.new.vcpu ≡ cpu.old.vcpu }
{
    match came {
        Ok(Ok(reply)) => {
            settle_with(cpu, want, got_of_control(reply));
            None
        }
        Ok(Err(_)) => Some(stopped(None)),
        Err(_) => Some(stopped(Some(StopCause::Memory))),
    }
}

/// Settles the instruction; the vCPU's number stays.
#[tactic(auto, using(crate::proofs::CpuLemmas::settled_vcpu))]
pub(crate) fn settle_with(cpu: &mut CpuNote, want: &Want, got: Got)
    requires { CanSettle want.now cpu.old }
    ensures state { cpu.new ≡ settled cpu.old want.now got }
    ensures vcpu { cpu.new.vcpu ≡ cpu.old.vcpu }
{
    settle(cpu, want, got);
}

// What a bank's reply gives.
fn got_of_bank(reply: &BankReply) -> Got
    requires { HasWidth (Ok (Ok reply.now)) }
    ensures { result ≡ got_of_bank reply.now }
{
    match reply {
        BankReply::Got(bytes) => value_of(bytes.as_slice()),
        BankReply::Fault(_) => Got::Fault,
        _ => Got::Done,
    }
}

// The number in some bytes.
#[tactic(auto, using(crate::proofs::CpuLemmas::field_of_all))]
fn value_of(bytes: &[u8]) -> Got
    requires { is_width (length bytes.now) ≡ true }
    ensures { result ≡ got.Value (le_number bytes.now) }
{
    match get_le(bytes, 0, bytes.len()) {
        Some(value) => Got::Value(value),
        None => unreachable!(),
    }
}

// What the control machine's reply gives.
fn got_of_control(reply: &ControlReply) -> Got
    ensures { result ≡ got_of_control reply.now }
{
    match reply {
        ControlReply::Value(value) => Got::Value(*value),
        _ => Got::Done,
    }
}

// The end of a slice whose access was refused.
fn refused(zone: u8, bank: u8, why: &Refusal) -> Cut
    ensures course { (on : CpuNote → Course CpuNote) (cpu : CpuNote) (asked : Want) → behind_access on cpu asked zone bank (Ok (Err why.now)) ≡ Ends cpu result.end }
    ensures cause { result.cause ≡ access_cause (Ok (Err why.now)) }
{
    match why {
        Refusal::Sealed { block, seen } => Cut {
            end: SliceEnd::Sealed {
                book: BookId::Bank { zone, bank },
                block: *block,
                seen: *seen,
            },
            cause: None,
        },
        Refusal::Frozen { .. } => stopped(None),
        Refusal::Full(full) => stopped(Some(StopCause::Full(*full))),
    }
}

/// The end of a slice for which the run stops.
pub(crate) fn stopped(cause: Option<StopCause>) -> Cut
    ensures end { result.end ≡ end.Stopped }
    ensures cause { result.cause ≡ cause }
{
    Cut {
        end: SliceEnd::Stopped,
        cause,
    }
}
