// A page that is held, with its number.
use crate::page::Page;

/// A page with its number, pages of all blocks counted.
#[derive(Drop)]
pub struct Held {
    pub number: u64,
    pub page: Page,
}
