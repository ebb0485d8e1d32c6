// Scripts, printed.
ghost use Rattle.std.specs.Prelude.{◌≡◌, ◌++◌, IfOk, codes, string_bytes};
ghost use Rattle.chv_defs_base.specs.Numbers.{dec_text};
ghost use Rattle.chv_defs_scene.specs.ScriptText as text;

use chv_defs_base::Text;
use chv_defs_scene::{Line, MathOp, Script};
use chv_num::hex_of;
use std::alloc::{AllocError, Global};

/// The text of a script: its instructions, each ended by a line feed.
pub fn print(alloc: Global, script: &Script) -> Result<Text, AllocError>
    ensures { IfOk result (λ printed. printed ≡ text.script_text script.now) }
{
    let mut shown = String::new(alloc);
    for line in script.lines.as_slice() {
        let next = line_text(alloc, line)?;
        writeln!(shown, "{next}")?;
    }
    Ok(Text::new(shown))
}

/// The first line of a vCPU's section, with its line feed: the number of the vCPU, and how many instructions it may execute.
#[tactic(auto, using(crate::proofs::Printed::regrouped))]
pub fn vcpu_line(alloc: Global, vcpu: u8, fuel: u64) -> Result<String, AllocError>
    ensures { IfOk result (λ line. string_bytes line ≡ codes "vcpu" ++ text.field (dec_text vcpu) ++ text.field (dec_text fuel) ++ codes "\n") }
{
    format!(in alloc; "vcpu {vcpu} {fuel}\n")
}

/// An instruction, without its line feed.
pub fn line_text(alloc: Global, line: &Line) -> Result<String, AllocError>
    ensures { IfOk result (λ shown. string_bytes shown ≡ text.line_text line.now) }
{
    match line {
        Line::At(name) => after_word(alloc, "at ", name.as_str()),
        Line::Set { rd, value } => set_text(alloc, *rd, *value),
        Line::Mov { rd, ra } => mov_text(alloc, *rd, *ra),
        Line::Math { op, rd, ra, rb } => math_text(alloc, *op, *rd, *ra, *rb),
        Line::Ld {
            width,
            rd,
            ra,
            offset,
        } => ld_text(alloc, *width, *rd, *ra, *offset),
        Line::St {
            width,
            rs,
            ra,
            offset,
        } => st_text(alloc, *width, *rs, *ra, *offset),
        Line::Put { ra, bytes } => put_text(alloc, *ra, bytes.as_slice()),
        Line::In { width, rd, port } => in_text(alloc, *width, *rd, *port),
        Line::Out { width, rs, port } => out_text(alloc, *width, *rs, *port),
        Line::Jmp(to) => after_word(alloc, "jmp ", to.as_str()),
        Line::Jz { ra, to } => jz_text(alloc, *ra, to.as_str()),
        Line::Jnz { ra, to } => jnz_text(alloc, *ra, to.as_str()),
        Line::Jlt { ra, rb, to } => jlt_text(alloc, *ra, *rb, to.as_str()),
        Line::Halt => String::from_str(alloc, "halt"),
    }
}

fn after_word(alloc: Global, word: &str, rest: &str) -> Result<String, AllocError>
    ensures { IfOk result (λ joined. string_bytes joined ≡ word.now ++ rest.now) }
{
    let mut joined = String::from_str(alloc, word)?;
    joined.push_str(rest)?;
    Ok(joined)
}

fn operation(op: MathOp) -> &'static str
    ensures { result.now ≡ text.operation op }
{
    match op {
        MathOp::Add => "add",
        MathOp::Sub => "sub",
        MathOp::And => "and",
        MathOp::Or => "or",
        MathOp::Xor => "xor",
    }
}

// Each instruction that has fields to print, by these.

#[tactic(auto, using(crate::proofs::Printed::regrouped))]
fn set_text(alloc: Global, rd: u8, value: u64) -> Result<String, AllocError>
    ensures { IfOk result (λ shown. string_bytes shown ≡ text.line_text (Line.Set rd value)) }
{
    format!(in alloc; "set r{rd} 0x{value:x}")
}

#[tactic(auto, using(crate::proofs::Printed::regrouped))]
fn mov_text(alloc: Global, rd: u8, ra: u8) -> Result<String, AllocError>
    ensures { IfOk result (λ shown. string_bytes shown ≡ text.line_text (Line.Mov rd ra)) }
{
    format!(in alloc; "mov r{rd} r{ra}")
}

#[tactic(auto, using(crate::proofs::Printed::regrouped))]
fn math_text(alloc: Global, op: MathOp, rd: u8, ra: u8, rb: u8) -> Result<String, AllocError>
    ensures { IfOk result (λ shown. string_bytes shown ≡ text.line_text (Line.Math op rd ra rb)) }
{
    let word = operation(op);
    format!(in alloc; "{word} r{rd} r{ra} r{rb}")
}

#[tactic(auto, using(crate::proofs::Printed::regrouped))]
fn ld_text(alloc: Global, width: u8, rd: u8, ra: u8, offset: u64) -> Result<String, AllocError>
    ensures { IfOk result (λ shown. string_bytes shown ≡ text.line_text (Line.Ld width rd ra offset)) }
{
    format!(in alloc; "ld {width} r{rd} r{ra} 0x{offset:x}")
}

#[tactic(auto, using(crate::proofs::Printed::regrouped))]
fn st_text(alloc: Global, width: u8, rs: u8, ra: u8, offset: u64) -> Result<String, AllocError>
    ensures { IfOk result (λ shown. string_bytes shown ≡ text.line_text (Line.St width rs ra offset)) }
{
    format!(in alloc; "st {width} r{rs} r{ra} 0x{offset:x}")
}

#[tactic(auto, using(crate::proofs::Printed::regrouped))]
fn put_text(alloc: Global, ra: u8, bytes: &[u8]) -> Result<String, AllocError>
    ensures { IfOk result (λ shown. string_bytes shown ≡ text.line_text (Line.Put ra bytes.now)) }
{
    let digits = hex_of(alloc, bytes)?;
    format!(in alloc; "put r{ra} {digits}")
}

#[tactic(auto, using(crate::proofs::Printed::regrouped))]
fn in_text(alloc: Global, width: u8, rd: u8, port: u16) -> Result<String, AllocError>
    ensures { IfOk result (λ shown. string_bytes shown ≡ text.line_text (Line.In width rd port)) }
{
    format!(in alloc; "in {width} r{rd} 0x{port:x}")
}

#[tactic(auto, using(crate::proofs::Printed::regrouped))]
fn out_text(alloc: Global, width: u8, rs: u8, port: u16) -> Result<String, AllocError>
    ensures { IfOk result (λ shown. string_bytes shown ≡ text.line_text (Line.Out width rs port)) }
{
    format!(in alloc; "out {width} r{rs} 0x{port:x}")
}

#[tactic(auto, using(crate::proofs::Printed::regrouped))]
fn jz_text(alloc: Global, ra: u8, to: &str) -> Result<String, AllocError>
    ensures { IfOk result (λ shown. string_bytes shown ≡ text.line_text (Line.Jz ra to.now)) }
{
    format!(in alloc; "jz r{ra} {to}")
}

#[tactic(auto, using(crate::proofs::Printed::regrouped))]
fn jnz_text(alloc: Global, ra: u8, to: &str) -> Result<String, AllocError>
    ensures { IfOk result (λ shown. string_bytes shown ≡ text.line_text (Line.Jnz ra to.now)) }
{
    format!(in alloc; "jnz r{ra} {to}")
}

#[tactic(auto, using(crate::proofs::Printed::regrouped))]
fn jlt_text(alloc: Global, ra: u8, rb: u8, to: &str) -> Result<String, AllocError>
    ensures { IfOk result (λ shown. string_bytes shown ≡ text.line_text (Line.Jlt ra rb to.now)) }
{
    format!(in alloc; "jlt r{ra} r{rb} {to}")
}
