// Names of disks and of snapshots.
ghost use Rattle.std.specs.Prelude.{◌≡◌, ◌==◌, true, false, MatchResult, IfOk};
ghost use Rattle.std.proofs.Common.{rules};
ghost use Rattle.std.specs.Hash as fed;
ghost use Rattle.std.specs.Cmp.Rules.{comparing, hashing};
ghost use Rattle.std.specs.Cmp.Lexicographic.{pointwise};
ghost use Rattle.chv_defs_base.specs.Name.{is_name, is_name_byte, starts_with_dot};
ghost use Rattle.std.specs.List.{list_all};

use crate::{Exact, Text};
use std::alloc::{AllocError, Global};
use std::hash::{Hash, Hasher};
use std::marker::Model;

/// A name: 1 to 64 bytes, each an ASCII letter, a digit, `.`, `_` or `-`, the first not `.`.
/// So a name is a file's name in one folder. Contracts see it as the list of its bytes.
#[derive(Drop)]
pub struct Name {
    text: Text,
}

impl Model for Name {
    ghost use Rattle.std.specs.Prelude.{List, ℕ, ◌≡◌, true};
    ghost use Rattle.chv_defs_base.specs.Name.{is_name, is_name_byte, starts_with_dot};
    ghost use Rattle.std.specs.List.{list_all};

    ghost Value = { List ℕ };

    ghost view = { λ n. n.text };

    ghost invariant = { λ n. is_name n.text ≡ true };
}

/// Whether bytes are a name. Takes no memory.
pub fn is_name(bytes: &[u8]) -> bool
    ensures { result ≡ is_name bytes.now }
{
    1 <= bytes.len() && bytes.len() <= 64 && has_name_bytes(bytes) && !has_dot_first(bytes)
}

fn has_name_bytes(bytes: &[u8]) -> bool
    ensures { result ≡ list_all is_name_byte bytes.now }
{
    bytes.iter().all(|b| is_letter(*b))
}

fn has_dot_first(bytes: &[u8]) -> bool
    ensures { result ≡ starts_with_dot bytes.now }
{
    match bytes {
        [first, ..] => *first == b'.',
        [] => false,
    }
}

fn is_letter(byte: u8) -> bool
    ensures { result ≡ is_name_byte byte }
{
    (48 <= byte && byte <= 57)
        || (65 <= byte && byte <= 90)
        || (97 <= byte && byte <= 122)
        || byte == b'.'
        || byte == b'_'
        || byte == b'-'
}

impl Name {
    /// The name that a text spells, or the text back where it spells none. Takes no memory.
    pub fn of(text: Text) -> Result<Name, Text>
        ensures named { MatchResult result (λ name. (name ≡ text) × (is_name text ≡ true)) (λ back. (back ≡ text) × (is_name text ≡ false)) }
    {
        if is_name(text.as_str().as_bytes()) {
            Ok(Name { text })
        } else {
            Err(text)
        }
    }

    /// The name as text, borrowed.
    pub fn as_str(&self) -> &str
        ensures text { result.now ≡ self.now }
        ensures name { is_name self.now ≡ true }
    {
        self.text.as_str()
    }

    /// The text inside. Takes no memory.
    pub fn into_text(self) -> Text
        ensures text { result ≡ self }
        ensures name { is_name self ≡ true }
    {
        self.text
    }
}

impl PartialEq for Name {
    ghost eq = { pointwise ◌==◌ };

    ghost laws = { Prim.search (comparing, rules) };

    fn eq(&self, other: &Name) -> bool {
        self.text == other.text
    }
}

impl Eq for Name {
    ghost laws = { Prim.search (comparing, rules) };
}

impl Hash for Name {
    ghost hash_input = { λ n. fed.str n };

    ghost respects_eq = { Prim.search (hashing, rules) };

    fn hash<H: Hasher>(&self, state: &mut H) {
        self.text.hash(state);
    }
}

impl Clone for Name {
    ghost is_clone = { λ a b. b ≡ a };

    fn clone(&self) -> Result<Name, AllocError> {
        Ok(Name {
            text: self.text.clone()?,
        })
    }
}

impl Exact for Name {
    ghost exact = { λ x y h. h };
}
