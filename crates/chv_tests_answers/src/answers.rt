// What answers show. Large values are dropped in generic functions, where it is one step for the check.
use crate::escapes::shown;
use chv_defs_base::{Bytes, Rule, Text};
use std::alloc::{AllocError, Global};
use std::io;

/// A value that an answer shows.
pub trait Shown {
    /// The value as an answer shows it.
    fn shown(&self, alloc: Global) -> Result<String, AllocError>;
}

impl Shown for Text {
    fn shown(&self, alloc: Global) -> Result<String, AllocError> {
        shown(alloc, self.as_str().as_bytes())
    }
}

impl Shown for Bytes {
    fn shown(&self, alloc: Global) -> Result<String, AllocError> {
        shown(alloc, self.as_slice())
    }
}

impl Shown for Rule {
    fn shown(&self, alloc: Global) -> Result<String, AllocError> {
        let name = self.name();
        format!(in alloc; "rule {name}")
    }
}

/// A value that a call gives, as an answer shows it.
pub fn written<T: Shown + Drop>(
    alloc: Global,
    value: Result<T, AllocError>,
) -> Result<String, AllocError> {
    value?.shown(alloc)
}

/// What a call gives of a case, or why it refuses the case.
pub fn answer<T: Shown + Drop, E: Shown + Drop>(
    alloc: Global,
    given: Result<Result<T, E>, AllocError>,
) -> Result<String, AllocError> {
    match given? {
        Ok(value) => value.shown(alloc),
        Err(refused) => refused.shown(alloc),
    }
}

/// What a call gives of a case that no rule refuses.
pub fn allowed<T: Drop>(given: Result<Result<T, Rule>, AllocError>) -> io::Result<T> {
    match given? {
        Ok(value) => Ok(value),
        Err(rule) => Err(io::Error::other(rule.name())),
    }
}

/// A value that can only lack memory, as what a case gives.
pub fn allocated<T: Drop>(value: Result<T, AllocError>) -> io::Result<T> {
    Ok(value?)
}
