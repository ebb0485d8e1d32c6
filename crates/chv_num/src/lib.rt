//! Numbers as texts and as bytes: decimal and hexadecimal texts, pairs and little-endian fields.
#![tactic(auto)]

mod digits;
mod fields;
mod laws;
mod pairs;

pub use digits::{read_dec, read_hex};
pub use fields::{get_le, put_le};
pub use laws::{
    dec_has_one_spelling, field_has_one_spelling, hex_has_one_spelling, pairs_have_one_spelling,
};
pub use pairs::{bytes_of_hex, hex_of};
