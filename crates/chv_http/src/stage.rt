// How far the bytes of a stream were looked at.
ghost use Rattle.std.specs.Prelude.{◌≡◌, ◌≤◌, length};
ghost use Rattle.chv_defs_api.specs.HttpFront.{IsFront};

use crate::front::{end_of_front, first_text};
use crate::head::Head;
use chv_defs_base::Rule;

/// The most bytes of a head.
const LONGEST_HEAD: usize = 8_192;

/// What is known of the rest of a stream.
#[derive(Clone, Copy)]
pub enum Stage {
    /// No front ends in the first `looked` bytes, and the first `text` bytes are CR and LF.
    Front { text: usize, looked: usize },
    /// A head stands at the front, and its body is to follow.
    Body(Head),
    /// No request can come.
    Bad(Rule),
}

impl Stage {
    ghost use Rattle.chv_http.specs.Stage.{Holds, Settles};

    /// The stage of bytes that nobody has looked at.
    pub const UNSEEN: Stage = Stage::Front { text: 0, looked: 0 };

    /// What the bytes begin with, by looking on where an earlier look ended.
    pub fn look_on(self, bytes: &[u8]) -> Stage
        requires { Holds self bytes.now }
        ensures holds { Holds result bytes.now }
        ensures settled { Settles result bytes.now }
    {
        match self {
            Stage::Front { text, looked } => Stage::of_front(bytes, text, looked),
            stage => stage,
        }
    }

    /// What the bytes begin with, where no front ends in the first `looked` bytes.
    fn of_front(bytes: &[u8], text: usize, looked: usize) -> Stage
        requires { Holds (Stage.Front text looked) bytes.now }
        ensures holds { Holds result bytes.now }
        ensures settled { Settles result bytes.now }
    {
        let limit = bytes.len().min(LONGEST_HEAD);
        let text = first_text(bytes, text, limit);
        match end_of_front(bytes, text, looked, limit) {
            Some(end) => Stage::of_head(bytes, end),
            None if limit == LONGEST_HEAD => Stage::Bad(Rule::BadHead),
            None => Stage::Front {
                text,
                looked: limit,
            },
        }
    }

    /// What the bytes begin with, where a front ends at `end`.
    fn of_head(bytes: &[u8], end: usize) -> Stage
        requires front { IsFront bytes.now end }
        requires short { end ≤ LONGEST_HEAD }
        requires in_range { end ≤ length bytes.now }
        ensures holds { Holds result bytes.now }
        ensures settled { Settles result bytes.now }
    {
        match Head::of(&bytes[..end]) {
            Ok(head) => Stage::Body(head),
            Err(rule) => Stage::Bad(rule),
        }
    }
}
