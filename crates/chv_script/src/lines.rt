// Instructions, by their words.
ghost use Rattle.std.specs.Prelude.{◌≡◌, option_map};
ghost use Rattle.chv_defs_scene.specs.ScriptReading as script;
ghost use Rattle.chv_script.specs.Answer.{Gives};
ghost use Rattle.chv_script.specs.Fields.{fields_behind};

use crate::fields::{four, is_word, next_field, one, three, two};
use crate::kinds::{memory_width, name, port, port_width, put_bytes, register, value};
use crate::stop::Stop;
use chv_defs_base::Reason;
use chv_defs_scene::{Line, MathOp};
use std::alloc::Global;

/// The instruction that a line is, or why it is none; its labels are not looked at.
pub(crate) fn line(alloc: Global, text: &[u8]) -> Result<Line, Stop>
    ensures { Gives (λ x. x) result (script.line_of text.now) }
{
    let (word, fields) = next_field(text);
    instruction(alloc, word, fields)
}

fn instruction(alloc: Global, word: &[u8], fields: Option<&[u8]>) -> Result<Line, Stop>
    ensures { Gives (λ x. x) result (script.instruction_of word.now (fields_behind (option_map (λ s. s.now) fields.entry))) }
{
    if is_word(word, "at") {
        at(alloc, fields)
    } else if is_word(word, "set") {
        set(fields)
    } else if is_word(word, "mov") {
        mov(fields)
    } else if is_word(word, "halt") {
        halt(fields)
    } else {
        math_line(alloc, word, fields)
    }
}

fn math_line(alloc: Global, word: &[u8], fields: Option<&[u8]>) -> Result<Line, Stop>
    ensures { Gives (λ x. x) result (script.math_of word.now (fields_behind (option_map (λ s. s.now) fields.entry))) }
{
    if is_word(word, "add") {
        math(MathOp::Add, fields)
    } else if is_word(word, "sub") {
        math(MathOp::Sub, fields)
    } else if is_word(word, "and") {
        math(MathOp::And, fields)
    } else if is_word(word, "or") {
        math(MathOp::Or, fields)
    } else if is_word(word, "xor") {
        math(MathOp::Xor, fields)
    } else {
        access_line(alloc, word, fields)
    }
}

fn access_line(alloc: Global, word: &[u8], fields: Option<&[u8]>) -> Result<Line, Stop>
    ensures { Gives (λ x. x) result (script.access_of word.now (fields_behind (option_map (λ s. s.now) fields.entry))) }
{
    if is_word(word, "ld") {
        ld(fields)
    } else if is_word(word, "st") {
        st(fields)
    } else if is_word(word, "put") {
        put(alloc, fields)
    } else if is_word(word, "in") {
        in_port(fields)
    } else if is_word(word, "out") {
        out_port(fields)
    } else {
        jump_line(alloc, word, fields)
    }
}

fn jump_line(alloc: Global, word: &[u8], fields: Option<&[u8]>) -> Result<Line, Stop>
    ensures { Gives (λ x. x) result (script.jump_of word.now (fields_behind (option_map (λ s. s.now) fields.entry))) }
{
    if is_word(word, "jmp") {
        jmp(alloc, fields)
    } else if is_word(word, "jz") {
        jz(alloc, fields)
    } else if is_word(word, "jnz") {
        jnz(alloc, fields)
    } else if is_word(word, "jlt") {
        jlt(alloc, fields)
    } else {
        Err(Stop::Refused(Reason::UnknownWord))
    }
}

#[tactic(auto, unfolding(chv_defs_scene::specs::ScriptReading::with_one))]
fn at(alloc: Global, fields: Option<&[u8]>) -> Result<Line, Stop>
    ensures { Gives (λ x. x) result (script.with_one script.name_of Line.At (fields_behind (option_map (λ s. s.now) fields.entry))) }
{
    let field = one(fields)?;
    Ok(Line::At(name(alloc, field)?))
}

#[tactic(auto, unfolding(chv_defs_scene::specs::ScriptReading::with_two))]
fn set(fields: Option<&[u8]>) -> Result<Line, Stop>
    ensures { Gives (λ x. x) result (script.with_two script.register_of script.value_of Line.Set (fields_behind (option_map (λ s. s.now) fields.entry))) }
{
    let (d, number) = two(fields)?;
    let rd = register(d)?;
    let value = value(number)?;
    Ok(Line::Set { rd, value })
}

#[tactic(auto, unfolding(chv_defs_scene::specs::ScriptReading::with_two))]
fn mov(fields: Option<&[u8]>) -> Result<Line, Stop>
    ensures { Gives (λ x. x) result (script.with_two script.register_of script.register_of Line.Mov (fields_behind (option_map (λ s. s.now) fields.entry))) }
{
    let (d, a) = two(fields)?;
    let rd = register(d)?;
    let ra = register(a)?;
    Ok(Line::Mov { rd, ra })
}

#[tactic(auto, unfolding(chv_defs_scene::specs::ScriptReading::with_none))]
fn halt(fields: Option<&[u8]>) -> Result<Line, Stop>
    ensures { Gives (λ x. x) result (script.with_none Line.Halt (fields_behind (option_map (λ s. s.now) fields.entry))) }
{
    match fields {
        None => Ok(Line::Halt),
        Some(_) => Err(Stop::Refused(Reason::FieldCount)),
    }
}

#[tactic(auto, unfolding(chv_defs_scene::specs::ScriptReading::with_three))]
fn math(op: MathOp, fields: Option<&[u8]>) -> Result<Line, Stop>
    ensures { Gives (λ x. x) result (script.with_three script.register_of script.register_of script.register_of (Line.Math op) (fields_behind (option_map (λ s. s.now) fields.entry))) }
{
    let (d, a, b) = three(fields)?;
    let rd = register(d)?;
    let ra = register(a)?;
    let rb = register(b)?;
    Ok(Line::Math { op, rd, ra, rb })
}

#[tactic(auto, unfolding(chv_defs_scene::specs::ScriptReading::with_four))]
fn ld(fields: Option<&[u8]>) -> Result<Line, Stop>
    ensures { Gives (λ x. x) result (script.with_four Line.Ld (fields_behind (option_map (λ s. s.now) fields.entry))) }
{
    let (w, d, a, number) = four(fields)?;
    let width = memory_width(w)?;
    let rd = register(d)?;
    let ra = register(a)?;
    let offset = value(number)?;
    Ok(Line::Ld {
        width,
        rd,
        ra,
        offset,
    })
}

#[tactic(auto, unfolding(chv_defs_scene::specs::ScriptReading::with_four))]
fn st(fields: Option<&[u8]>) -> Result<Line, Stop>
    ensures { Gives (λ x. x) result (script.with_four Line.St (fields_behind (option_map (λ s. s.now) fields.entry))) }
{
    let (w, s, a, number) = four(fields)?;
    let width = memory_width(w)?;
    let rs = register(s)?;
    let ra = register(a)?;
    let offset = value(number)?;
    Ok(Line::St {
        width,
        rs,
        ra,
        offset,
    })
}

#[tactic(auto, unfolding(chv_defs_scene::specs::ScriptReading::with_two))]
fn put(alloc: Global, fields: Option<&[u8]>) -> Result<Line, Stop>
    ensures { Gives (λ x. x) result (script.with_two script.register_of script.put_bytes_of Line.Put (fields_behind (option_map (λ s. s.now) fields.entry))) }
{
    let (a, digits) = two(fields)?;
    let ra = register(a)?;
    let bytes = put_bytes(alloc, digits)?;
    Ok(Line::Put { ra, bytes })
}

#[tactic(auto, unfolding(chv_defs_scene::specs::ScriptReading::with_three))]
fn in_port(fields: Option<&[u8]>) -> Result<Line, Stop>
    ensures { Gives (λ x. x) result (script.with_three script.port_width_of script.register_of script.port_of Line.In (fields_behind (option_map (λ s. s.now) fields.entry))) }
{
    let (w, d, number) = three(fields)?;
    let width = port_width(w)?;
    let rd = register(d)?;
    let port = port(number)?;
    Ok(Line::In { width, rd, port })
}

#[tactic(auto, unfolding(chv_defs_scene::specs::ScriptReading::with_three))]
fn out_port(fields: Option<&[u8]>) -> Result<Line, Stop>
    ensures { Gives (λ x. x) result (script.with_three script.port_width_of script.register_of script.port_of Line.Out (fields_behind (option_map (λ s. s.now) fields.entry))) }
{
    let (w, s, number) = three(fields)?;
    let width = port_width(w)?;
    let rs = register(s)?;
    let port = port(number)?;
    Ok(Line::Out { width, rs, port })
}

#[tactic(auto, unfolding(chv_defs_scene::specs::ScriptReading::with_one))]
fn jmp(alloc: Global, fields: Option<&[u8]>) -> Result<Line, Stop>
    ensures { Gives (λ x. x) result (script.with_one script.name_of Line.Jmp (fields_behind (option_map (λ s. s.now) fields.entry))) }
{
    let field = one(fields)?;
    Ok(Line::Jmp(name(alloc, field)?))
}

#[tactic(auto, unfolding(chv_defs_scene::specs::ScriptReading::with_two))]
fn jz(alloc: Global, fields: Option<&[u8]>) -> Result<Line, Stop>
    ensures { Gives (λ x. x) result (script.with_two script.register_of script.name_of Line.Jz (fields_behind (option_map (λ s. s.now) fields.entry))) }
{
    let (a, label) = two(fields)?;
    let ra = register(a)?;
    let to = name(alloc, label)?;
    Ok(Line::Jz { ra, to })
}

#[tactic(auto, unfolding(chv_defs_scene::specs::ScriptReading::with_two))]
fn jnz(alloc: Global, fields: Option<&[u8]>) -> Result<Line, Stop>
    ensures { Gives (λ x. x) result (script.with_two script.register_of script.name_of Line.Jnz (fields_behind (option_map (λ s. s.now) fields.entry))) }
{
    let (a, label) = two(fields)?;
    let ra = register(a)?;
    let to = name(alloc, label)?;
    Ok(Line::Jnz { ra, to })
}

#[tactic(auto, unfolding(chv_defs_scene::specs::ScriptReading::with_three))]
fn jlt(alloc: Global, fields: Option<&[u8]>) -> Result<Line, Stop>
    ensures { Gives (λ x. x) result (script.with_three script.register_of script.register_of script.name_of Line.Jlt (fields_behind (option_map (λ s. s.now) fields.entry))) }
{
    let (a, b, label) = three(fields)?;
    let ra = register(a)?;
    let rb = register(b)?;
    let to = name(alloc, label)?;
    Ok(Line::Jlt { ra, rb, to })
}
