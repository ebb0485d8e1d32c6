// The kinds of fields.
ghost use Rattle.std.specs.Prelude.{◌≡◌, ◌&&◌, if◌then◌else◌, nat_le, length, option_map, Some, None};
ghost use Rattle.std.specs.List.{list_all};
ghost use Rattle.chv_defs_base.specs.Id.{is_id, is_id_byte};
ghost use Rattle.chv_defs_base.specs.Numbers.{dec, is_width};
ghost use Rattle.chv_defs_api.specs.Registers as registers;
ghost use Rattle.chv_defs_scene.specs.ScriptReading as script;
ghost use Rattle.chv_script.specs.Answer.{Gives};

use crate::stop::Stop;
use chv_defs_base::{Bytes, Reason, Text};
use chv_num::{bytes_of_hex, read_dec, read_hex};
use std::alloc::Global;
use std::str::from_utf8;

/// The highest number of a register.
const LAST_REGISTER: u64 = 15;

/// The highest number of a port.
const LAST_PORT: u64 = 0xffff;

/// How many bytes one instruction can store.
const MOST_PUT: usize = 4096;

/// The number of the register that the field names.
#[tactic(auto, unfolding(chv_defs_scene::specs::ScriptReading::register_of))]
pub(crate) fn register(field: &[u8]) -> Result<u8, Stop>
    ensures { Gives (λ x. x) result (script.register_of field.now) }
{
    match field {
        [b'r', digits @ ..] => register_number(digits),
        _ => Err(Stop::Refused(Reason::BadRegister)),
    }
}

fn register_number(digits: &[u8]) -> Result<u8, Stop>
    ensures { Gives (λ x. x) result (script.kept script.is_register Reason.BadRegister (dec digits.now)) }
{
    match read_dec(digits) {
        Some(number) if number <= LAST_REGISTER => Ok(number as u8),
        _ => Err(Stop::Refused(Reason::BadRegister)),
    }
}

fn is_memory_width(number: u64) -> bool
    ensures { result ≡ is_width number }
{
    number == 1 || number == 2 || number == 4 || number == 8
}

/// The width of a load or a store.
#[tactic(auto, unfolding(chv_defs_scene::specs::ScriptReading::memory_width_of))]
pub(crate) fn memory_width(field: &[u8]) -> Result<u8, Stop>
    ensures { Gives (λ x. x) result (script.memory_width_of field.now) }
{
    match read_dec(field) {
        Some(number) if number < 9 && is_memory_width(number) => Ok(number as u8),
        _ => Err(Stop::Refused(Reason::BadWidth)),
    }
}

fn is_port_width(number: u64) -> bool
    ensures { result ≡ registers.is_port_width number }
{
    number == 1 || number == 2 || number == 4
}

/// The width of an access to a port.
#[tactic(auto, unfolding(chv_defs_scene::specs::ScriptReading::port_width_of))]
pub(crate) fn port_width(field: &[u8]) -> Result<u8, Stop>
    ensures { Gives (λ x. x) result (script.port_width_of field.now) }
{
    match read_dec(field) {
        Some(number) if number < 5 && is_port_width(number) => Ok(number as u8),
        _ => Err(Stop::Refused(Reason::BadWidth)),
    }
}

/// A number of 64 bits.
#[tactic(auto, unfolding(chv_defs_scene::specs::ScriptReading::value_of))]
pub(crate) fn value(field: &[u8]) -> Result<u64, Stop>
    ensures { Gives (λ x. x) result (script.value_of field.now) }
{
    match read_hex(field) {
        Some(number) => Ok(number),
        None => Err(Stop::Refused(Reason::BadHex)),
    }
}

/// The number of a port.
#[tactic(auto, unfolding(chv_defs_scene::specs::ScriptReading::port_of))]
pub(crate) fn port(field: &[u8]) -> Result<u16, Stop>
    ensures { Gives (λ x. x) result (script.port_of field.now) }
{
    match read_hex(field) {
        Some(number) if number <= LAST_PORT => Ok(number as u16),
        _ => Err(Stop::Refused(Reason::BadHex)),
    }
}

/// The bytes of a `put`.
#[tactic(auto, unfolding(chv_defs_scene::specs::ScriptReading::put_bytes_of))]
pub(crate) fn put_bytes(alloc: Global, field: &[u8]) -> Result<Bytes, Stop>
    ensures { Gives (λ x. x) result (script.put_bytes_of field.now) }
{
    match bytes_of_hex(alloc, field)? {
        Some(bytes) => few_bytes(Bytes::new(bytes)),
        None => Err(Stop::Refused(Reason::BadHex)),
    }
}

fn few_bytes(bytes: Bytes) -> Result<Bytes, Stop>
    ensures { Gives (λ x. x) result (script.kept script.is_put Reason.BadHex (Some bytes)) }
{
    if 1 <= bytes.len() && bytes.len() <= MOST_PUT {
        Ok(bytes)
    } else {
        Err(Stop::Refused(Reason::BadHex))
    }
}

/// The label that the field names.
#[tactic(auto, unfolding(chv_defs_scene::specs::ScriptReading::name_of))]
pub(crate) fn name(alloc: Global, field: &[u8]) -> Result<Text, Stop>
    ensures { Gives (λ x. x) result (script.name_of field.now) }
{
    match id(field) {
        Some(name) => Ok(Text::of(alloc, name)?),
        None => Err(Stop::Refused(Reason::BadName)),
    }
}

/// The field as a text, where it is an identifier.
pub(crate) fn id(field: &[u8]) -> Option<&str>
    ensures { option_map (λ s. s.now) result ≡ (if is_id field.now then Some field.now else None) }
{
    if !is_identifier(field) {
        return None;
    }
    match from_utf8(field) {
        Ok(name) => Some(name),
        Err(_) => None,
    }
}

fn is_identifier(bytes: &[u8]) -> bool
    ensures { result ≡ is_id bytes.now }
{
    1 <= bytes.len() && bytes.len() <= 32 && are_id_bytes(bytes)
}

fn are_id_bytes(bytes: &[u8]) -> bool
    ensures { result ≡ list_all is_id_byte bytes.now }
{
    bytes.iter().all(|byte| is_id_byte(*byte))
}

fn is_id_byte(byte: u8) -> bool
    ensures { result ≡ is_id_byte byte }
{
    matches!(byte, b'0'..=b'9' | b'A'..=b'Z' | b'a'..=b'z' | b'_' | b'-')
}
