// Each number and each list of bytes has one spelling, which is read back.
ghost use Rattle.std.specs.Prelude.{◌≡◌, ◌<◌, ◌^◌, ◌++◌, true, length, take, drop, Some};
ghost use Rattle.chv_defs_base.specs.Numbers.{dec, dec_text, hex, hex_text, pairs, bytes_of};
ghost use Rattle.chv_defs_base.specs.Numbers.{is_width, le_bytes, le_field};

/// A number's decimal text is read back, and no other text is read as that number.
pub fn dec_has_one_spelling(text: &[u8], n: u64)
    ensures read_back { dec (dec_text n) ≡ Some n }
    ensures one { dec text.now ≡ Some n → text.now ≡ dec_text n }
{}

/// A number's hexadecimal text is read back, and no other text is read as that number.
pub fn hex_has_one_spelling(text: &[u8], n: u64)
    ensures read_back { hex (hex_text n) ≡ Some n }
    ensures one { hex text.now ≡ Some n → text.now ≡ hex_text n }
{}

/// The pairs of at least one byte are read back, and no other text is read as those bytes.
pub fn pairs_have_one_spelling(text: &[u8], bytes: &[u8])
    ensures read_back { 0 < length bytes.now → bytes_of (pairs bytes.now) ≡ Some bytes.now }
    ensures one { bytes_of text.now ≡ Some bytes.now → text.now ≡ pairs bytes.now }
{}

/// A field is read back where it was put, and no other bytes are read as that number.
pub fn field_has_one_spelling(
    front: &[u8],
    rest: &[u8],
    bytes: &[u8],
    at: usize,
    value: u64,
    width: usize,
)
    requires width { is_width width ≡ true }
    requires fits { value < 256 ^ width }
    ensures read_back { le_field (front.now ++ (le_bytes width value ++ rest.now)) (length front.now) width
        ≡ Some value }
    ensures one { le_field bytes.now at width ≡ Some value
        → take width (drop at bytes.now) ≡ le_bytes width value }
{}
