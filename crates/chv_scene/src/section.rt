// A line of a session's section.
ghost use Rattle.std.specs.Prelude.{◌≡◌, IfOk, Some, None, option_map, if◌then◌else◌};
ghost use Rattle.chv_defs_scene.specs.ScenarioLines.{is_route_name as is_name_of_route, session_word};
ghost use Rattle.chv_defs_scene.specs.ScenarioLines as line;
ghost use Rattle.chv_scene.specs.Meanings.{part_of, Went};

use crate::fields::{at_space, has_space, is_route_name, is_word};
use crate::meaning::{end_line, grown};
use chv_defs_base::{Bytes, Reason, Row, Text};
use chv_defs_scene::Asked;
use chv_num::bytes_of_hex;
use std::alloc::{AllocError, Global};
use std::str::from_utf8;

/// Reads the next line of the section with these requests. Whether the section goes on, or why the line fails.
pub(crate) fn take_request(
    alloc: Global,
    requests: &mut Row<Asked>,
    text: &[u8],
) -> Result<Result<bool, Reason>, AllocError>
    ensures { IfOk result (λ went. Went requests.old requests.new went (session_word (line.at_space text.now).0 (line.at_space text.now).1)) }
{
    let meaning = session_line(alloc, text)?;
    grown(requests, meaning)
}

// What the line means, or why it fails: a request, or none where it ends the section.
fn session_line(alloc: Global, text: &[u8]) -> Result<Result<Option<Asked>, Reason>, AllocError>
    ensures { IfOk result (λ answer. part_of answer ≡ session_word (line.at_space text.now).0 (line.at_space text.now).1) }
{
    let (word, fields) = at_space(text);
    if is_word(word, "get") {
        get_line(alloc, fields)
    } else if is_word(word, "put") {
        put_line(alloc, fields)
    } else if is_word(word, "raw") {
        raw_line(alloc, fields)
    } else if is_word(word, "end") {
        Ok(end_line(fields))
    } else {
        Ok(Err(Reason::UnknownWord))
    }
}

// The name of a route as a text, or none where the field is no such name.
fn route_name(alloc: Global, field: &[u8]) -> Result<Option<Text>, AllocError>
    ensures { IfOk result (λ found. found ≡ (if is_name_of_route field.now then Some field.now else None)) }
{
    if !is_route_name(field) {
        return Ok(None);
    }
    match from_utf8(field) {
        Ok(name) => Ok(Some(Text::of(alloc, name)?)),
        Err(_) => Ok(None),
    }
}

fn get_line(
    alloc: Global,
    fields: Option<&[u8]>,
) -> Result<Result<Option<Asked>, Reason>, AllocError>
    ensures { IfOk result (λ answer. part_of answer ≡ line.get_line (option_map (λ s. s.now) fields.entry)) }
{
    let Some(field) = fields else {
        return Ok(Err(Reason::FieldCount));
    };
    if has_space(field) {
        return Ok(Err(Reason::FieldCount));
    }
    match route_name(alloc, field)? {
        Some(name) => Ok(Ok(Some(Asked::Get(name)))),
        None => Ok(Err(Reason::BadName)),
    }
}

fn put_line(
    alloc: Global,
    fields: Option<&[u8]>,
) -> Result<Result<Option<Asked>, Reason>, AllocError>
    ensures { IfOk result (λ answer. part_of answer ≡ line.put_line (option_map (λ s. s.now) fields.entry)) }
{
    let Some(fields) = fields else {
        return Ok(Err(Reason::FieldCount));
    };
    let (field, body) = at_space(fields);
    match body {
        None => put_without_body(alloc, field),
        Some(body) => put_with_body(alloc, field, body),
    }
}

fn put_without_body(
    alloc: Global,
    field: &[u8],
) -> Result<Result<Option<Asked>, Reason>, AllocError>
    ensures { IfOk result (λ answer. part_of answer ≡ line.put_name field.now None) }
{
    match route_name(alloc, field)? {
        Some(name) => Ok(Ok(Some(Asked::Put { name, body: None }))),
        None => Ok(Err(Reason::BadName)),
    }
}

fn put_with_body(
    alloc: Global,
    field: &[u8],
    body: &[u8],
) -> Result<Result<Option<Asked>, Reason>, AllocError>
    ensures { IfOk result (λ answer. part_of answer ≡ line.put_name field.now (Some body.now)) }
{
    if body.is_empty() {
        return Ok(Err(Reason::FieldCount));
    }
    match route_name(alloc, field)? {
        Some(name) => {
            let body = Bytes::of(alloc, body)?;
            Ok(Ok(Some(Asked::Put {
                name,
                body: Some(body),
            })))
        }
        None => Ok(Err(Reason::BadName)),
    }
}

fn raw_line(
    alloc: Global,
    fields: Option<&[u8]>,
) -> Result<Result<Option<Asked>, Reason>, AllocError>
    ensures { IfOk result (λ answer. part_of answer ≡ line.raw_line (option_map (λ s. s.now) fields.entry)) }
{
    let Some(digits) = fields else {
        return Ok(Err(Reason::FieldCount));
    };
    if has_space(digits) {
        return Ok(Err(Reason::FieldCount));
    }
    match bytes_of_hex(alloc, digits)? {
        Some(bytes) => Ok(Ok(Some(Asked::Raw(Bytes::new(bytes))))),
        None => Ok(Err(Reason::BadHex)),
    }
}
