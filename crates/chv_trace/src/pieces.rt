// The buffer before the output.
ghost use Rattle.std.specs.Prelude.{◌≡◌, ◌<◌, ◌≤◌, ◌++◌, [], false, OnOk, OnErr, string_bytes, string_len};
ghost use Rattle.std.specs.Fmt.{digit_glyph};
ghost use Rattle.chv_io.specs.Outside.{Rose};
ghost use Rattle.chv_defs_base.specs.Numbers.{pair, pairs};
ghost use Rattle.chv_defs.specs.TraceText.{pairs_or_dash};
ghost use Rattle.chv_trace.specs.Printing.{Adds, BreaksOff};

use crate::PrintError;
use chv_defs::Bytes;
use chv_io::Sink;
use std::alloc::AllocError;

/// The bytes of a piece: as many are held at most before they are put.
pub(crate) const PIECE: usize = 65_536;

/// Adds a text, and puts what is held where it is a piece.
pub(crate) fn push<K: Sink>(out: &mut K, buffer: &mut String, text: &str) -> Result<(), PrintError>
    ensures ok { OnOk result (Adds (K.written out.old) (string_bytes buffer.old) (K.written out.new) (string_bytes buffer.new) text.now) }
    ensures small { OnOk result (string_len buffer.new < PIECE) }
    ensures part { OnErr result (BreaksOff (K.written out.old) (string_bytes buffer.old) (K.written out.new) text.now) }
    ensures cause { result ≡ Err PrintError.Failed → Rose (K.write_faults out.old) (K.write_faults out.new) }
    ensures kept { OnOk result (K.write_faults out.new ≡ K.write_faults out.old) }
    ensures memory { result ≡ Err PrintError.Memory → K.write_faults out.new ≡ K.write_faults out.old }
    ensures later { K.write_faults out.old ≤ K.write_faults out.new }
{
    buffer.push_str(text)?;
    put_piece(out, buffer)
}

/// Puts what is held, and holds nothing then.
pub(crate) fn put_all<K: Sink>(out: &mut K, buffer: &mut String) -> Result<(), PrintError>
    ensures ok { OnOk result (Adds (K.written out.old) (string_bytes buffer.old) (K.written out.new) (string_bytes buffer.new) []) }
    ensures none { OnOk result (string_bytes buffer.new ≡ []) }
    ensures part { OnErr result (BreaksOff (K.written out.old) (string_bytes buffer.old) (K.written out.new) []) }
    ensures cause { result ≡ Err PrintError.Failed → Rose (K.write_faults out.old) (K.write_faults out.new) }
    ensures kept { OnOk result (K.write_faults out.new ≡ K.write_faults out.old) }
    ensures memory { result ≡ Err PrintError.Memory → K.write_faults out.new ≡ K.write_faults out.old }
    ensures later { K.write_faults out.old ≤ K.write_faults out.new }
{
    out.put(buffer.as_str().as_bytes())?;
    buffer.clear();
    Ok(())
}

// Puts what is held where it is a piece.
fn put_piece<K: Sink>(out: &mut K, buffer: &mut String) -> Result<(), PrintError>
    ensures ok { OnOk result (Adds (K.written out.old) (string_bytes buffer.old) (K.written out.new) (string_bytes buffer.new) []) }
    ensures small { OnOk result (string_len buffer.new < PIECE) }
    ensures part { OnErr result (BreaksOff (K.written out.old) (string_bytes buffer.old) (K.written out.new) []) }
    ensures cause { result ≡ Err PrintError.Failed → Rose (K.write_faults out.old) (K.write_faults out.new) }
    ensures kept { OnOk result (K.write_faults out.new ≡ K.write_faults out.old) }
    ensures memory { result ≡ Err PrintError.Memory → K.write_faults out.new ≡ K.write_faults out.old }
    ensures later { K.write_faults out.old ≤ K.write_faults out.new }
{
    if buffer.len() < PIECE {
        Ok(())
    } else {
        put_all(out, buffer)
    }
}

/// Adds bytes in pairs of hexadecimal digits, or a dash where there is none.
pub(crate) fn push_pairs<K: Sink>(
    out: &mut K,
    buffer: &mut String,
    bytes: &Bytes,
) -> Result<(), PrintError>
    ensures ok { OnOk result (Adds (K.written out.old) (string_bytes buffer.old) (K.written out.new) (string_bytes buffer.new) (pairs_or_dash bytes.now)) }
    ensures part { OnErr result (BreaksOff (K.written out.old) (string_bytes buffer.old) (K.written out.new) (pairs_or_dash bytes.now)) }
    ensures cause { result ≡ Err PrintError.Failed → Rose (K.write_faults out.old) (K.write_faults out.new) }
    ensures kept { OnOk result (K.write_faults out.new ≡ K.write_faults out.old) }
    ensures memory { result ≡ Err PrintError.Memory → K.write_faults out.new ≡ K.write_faults out.old }
    ensures later { K.write_faults out.old ≤ K.write_faults out.new }
{
    if bytes.is_empty() {
        push(out, buffer, "-")
    } else {
        push_each_pair(out, buffer, bytes.as_slice())
    }
}

fn push_each_pair<K: Sink>(out: &mut K, buffer: &mut String, bytes: &[u8]) -> Result<(), PrintError>
    ensures ok { OnOk result (Adds (K.written out.old) (string_bytes buffer.old) (K.written out.new) (string_bytes buffer.new) (pairs bytes.now)) }
    ensures part { OnErr result (BreaksOff (K.written out.old) (string_bytes buffer.old) (K.written out.new) (pairs bytes.now)) }
    ensures cause { result ≡ Err PrintError.Failed → Rose (K.write_faults out.old) (K.write_faults out.new) }
    ensures kept { OnOk result (K.write_faults out.new ≡ K.write_faults out.old) }
    ensures memory { result ≡ Err PrintError.Memory → K.write_faults out.new ≡ K.write_faults out.old }
    ensures later { K.write_faults out.old ≤ K.write_faults out.new }
{
    for byte in bytes {
        push_pair(out, buffer, *byte)?;
    }
    Ok(())
}

fn push_pair<K: Sink>(out: &mut K, buffer: &mut String, byte: u8) -> Result<(), PrintError>
    ensures ok { OnOk result (Adds (K.written out.old) (string_bytes buffer.old) (K.written out.new) (string_bytes buffer.new) (pair byte)) }
    ensures part { OnErr result (BreaksOff (K.written out.old) (string_bytes buffer.old) (K.written out.new) (pair byte)) }
    ensures cause { result ≡ Err PrintError.Failed → Rose (K.write_faults out.old) (K.write_faults out.new) }
    ensures kept { OnOk result (K.write_faults out.new ≡ K.write_faults out.old) }
    ensures memory { result ≡ Err PrintError.Memory → K.write_faults out.new ≡ K.write_faults out.old }
    ensures later { K.write_faults out.old ≤ K.write_faults out.new }
{
    add_pair(buffer, byte)?;
    put_piece(out, buffer)
}

// Two hexadecimal digits.
fn add_pair(buffer: &mut String, byte: u8) -> Result<(), AllocError>
    ensures { OnOk result (string_bytes buffer.new ≡ string_bytes buffer.old ++ pair byte) }
{
    buffer.push(digit(byte / 16))?;
    buffer.push(digit(byte % 16))
}

// A hexadecimal digit.
fn digit(value: u8) -> char
    requires { value < 16 }
    ensures value { result ≡ digit_glyph false value }
    ensures ascii { result < 128 }
{
    if value < 10 {
        char::from(b'0' + value)
    } else {
        char::from(b'a' + (value - 10))
    }
}
