// The bytes that the requests of a session stand for.
ghost use Rattle.std.specs.Prelude.{◌≡◌, ◌++◌, IfOk, OnOk};
ghost use Rattle.chv_defs_scene.specs.declared.scene.Asked.TheVariants as asked;
ghost use Rattle.chv_defs_base.specs.Numbers.{dec_text};
ghost use Rattle.chv_defs_api.specs.Replies.{length_text, line_end};
ghost use Rattle.chv_defs_scene.specs.SceneText.{request_bytes, put_bytes, host_part};
ghost use Rattle.chv_defs.specs.Schedule.{stream_of};

use chv_defs::{Asked, Row};
use std::alloc::{AllocError, Global};

/// The rest of a request line, and the header that names the host.
const HOST_PART: &[u8] = b" HTTP/1.1\r\nHost: localhost\r\n";

/// Appends a request line and the header that names the host.
fn push_front(stream: &mut Vec<u8>, method: &[u8], name: &[u8]) -> Result<(), AllocError>
    ensures { OnOk result (stream.new.items ≡ stream.old.items ++ (method.now ++ name.now ++ host_part)) }
{
    stream.extend_from_slice(method)?;
    stream.extend_from_slice(name)?;
    stream.extend_from_slice(HOST_PART)?;
    Ok(())
}

/// Appends a GET request.
fn push_get(stream: &mut Vec<u8>, name: &[u8]) -> Result<(), AllocError>
    ensures { OnOk result (stream.new.items ≡ stream.old.items ++ request_bytes (asked.Get name.now)) }
{
    push_front(stream, b"GET /api/v1/", name)?;
    stream.extend_from_slice(b"\r\n")?;
    Ok(())
}

/// Appends the header that tells a body's length, and the empty line behind it.
fn push_length(alloc: Global, stream: &mut Vec<u8>, length: usize) -> Result<(), AllocError>
    ensures { OnOk result (stream.new.items ≡ stream.old.items ++ (length_text ++ dec_text length ++ line_end ++ line_end)) }
{
    let header = format!(in alloc; "Content-Length: {length}\r\n\r\n")?;
    stream.extend_from_slice(header.as_bytes())?;
    Ok(())
}

/// Appends a PUT request with a body.
fn push_put(alloc: Global, stream: &mut Vec<u8>, name: &[u8], body: &[u8]) -> Result<(), AllocError>
    ensures { OnOk result (stream.new.items ≡ stream.old.items ++ put_bytes name.now body.now) }
{
    push_front(stream, b"PUT /api/v1/", name)?;
    push_length(alloc, stream, body.len())?;
    stream.extend_from_slice(body)?;
    Ok(())
}

/// Appends the bytes of a request.
fn push_request(alloc: Global, stream: &mut Vec<u8>, request: &Asked) -> Result<(), AllocError>
    ensures { OnOk result (stream.new.items ≡ stream.old.items ++ request_bytes request.now) }
{
    match request {
        Asked::Get(name) => push_get(stream, name.as_str().as_bytes()),
        Asked::Put { name, body: None } => push_put(alloc, stream, name.as_str().as_bytes(), b""),
        Asked::Put {
            name,
            body: Some(body),
        } => push_put(alloc, stream, name.as_str().as_bytes(), body.as_slice()),
        Asked::Raw(bytes) => stream.extend_from_slice(bytes.as_slice()),
    }
}

/// The bytes of a session's requests, one behind another.
pub(crate) fn stream_bytes(alloc: Global, requests: &[Asked]) -> Result<Vec<u8>, AllocError>
    ensures { IfOk result (λ stream. stream.items ≡ stream_of requests.now) }
{
    let mut stream = Vec::new(alloc);
    for request in requests {
        push_request(alloc, &mut stream, request)?;
    }
    Ok(stream)
}
