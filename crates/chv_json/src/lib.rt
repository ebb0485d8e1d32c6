//! The JSON of requests and replies: bodies are read, and texts are written (RFC 8259).
#![tactic(auto)]

mod config_from_json;
mod config_json;
mod fields;
mod from_json;
mod info_json;
mod laws;
mod read;
mod refused;
mod to_json;
mod write;

pub use laws::{written_configuration_is_read, written_disk_is_read};
pub use read::{config_of, disk_of, resize_of, text_of, zone_of};
pub use write::{config_text, counters_text, device_text, disk_text, info_text, quoted_text};
