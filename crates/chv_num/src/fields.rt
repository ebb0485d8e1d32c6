// Fields of 1, 2, 4 or 8 bytes, the lowest byte first.
ghost use Rattle.std.specs.Prelude.{◌≡◌, ◌<◌, ◌^◌, ◌++◌, true, OnOk, OnErr};
ghost use Rattle.chv_defs_base.specs.Numbers.{is_width, le_bytes, le_field};

use byteorder::{ByteOrder, LittleEndian};
use std::alloc::AllocError;

fn is_field_width(width: usize) -> bool
    ensures { result ≡ is_width width }
{
    width == 1 || width == 2 || width == 4 || width == 8
}

/// The number in the field of `width` bytes that begins at place `at`. None where `width` is none
/// of 1, 2, 4 and 8, or the field runs past the end.
pub fn get_le(bytes: &[u8], at: usize, width: usize) -> Option<u64>
    ensures { result ≡ le_field bytes.now at width }
{
    if !is_field_width(width) || bytes.len() < width || bytes.len() - width < at {
        return None;
    }
    Some(LittleEndian::read_uint(&bytes[at..at + width], width))
}

/// Adds a number to the end as a field of `width` bytes.
pub fn put_le(out: &mut Vec<u8>, value: u64, width: usize) -> Result<(), AllocError>
    requires width { is_width width ≡ true }
    requires fits { value < 256 ^ width }
    ensures ok { OnOk result (out.new.items ≡ out.old.items ++ le_bytes width value) }
    ensures err { OnErr result (out.new.items ≡ out.old.items) }
{
    let mut field = [0; 8];
    LittleEndian::write_uint(&mut field, value, width);
    out.extend_from_slice(&field[..width])
}
