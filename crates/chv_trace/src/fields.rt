// The fields of a line.
ghost use Rattle.std.specs.Prelude.{◌≡◌, ◌++◌, IfOk, IsOkAnd, flat_map, string_bytes};
ghost use Rattle.chv_defs_scene.specs.ScriptText.{field};
ghost use Rattle.chv_defs.specs.TraceText as text;

use chv_defs::{BookId, Text};
use std::alloc::{AllocError, Global};

/// A word and what follows it.
pub(crate) fn after_word(alloc: Global, word: &str, rest: &str) -> Result<String, AllocError>
    ensures { IfOk result (λ joined. string_bytes joined ≡ word.now ++ rest.now) }
{
    let mut joined = String::from_str(alloc, word)?;
    joined.push_str(rest)?;
    Ok(joined)
}

/// A word and a text, where there is one; else the error. It stands in the place of a `?`, so that the text is dropped here.
pub(crate) fn after_text(
    alloc: Global,
    word: &str,
    rest: Result<Text, AllocError>,
) -> Result<String, AllocError>
    ensures { IfOk result (λ joined. IsOkAnd rest (λ text. string_bytes joined ≡ word.now ++ text)) }
{
    after_word(alloc, word, rest?.as_str())
}

/// A number, or a dash where it is absent.
pub(crate) fn number_or_dash(alloc: Global, number: Option<u64>) -> Result<String, AllocError>
    ensures { IfOk result (λ shown. string_bytes shown ≡ text.number_or_dash number) }
{
    match number {
        Some(number) => number.to_string(alloc),
        None => String::from_str(alloc, "-"),
    }
}

/// A flag, 0 or 1.
pub(crate) fn flag(set: bool) -> &'static str
    ensures { result.now ≡ text.flag set }
{
    if set { "1" } else { "0" }
}

/// The control book, or a bank by its zone and number.
#[tactic(auto, using(crate::proofs::Joined::regrouped))]
pub(crate) fn book_text(alloc: Global, book: BookId) -> Result<String, AllocError>
    ensures { IfOk result (λ shown. string_bytes shown ≡ text.book_text book) }
{
    match book {
        BookId::Control => String::from_str(alloc, "c"),
        BookId::Bank { zone, bank } => format!(in alloc; "{zone}.{bank}"),
    }
}

/// Books after a space each, or a dash where there is none.
pub(crate) fn book_fields(alloc: Global, books: &[BookId]) -> Result<String, AllocError>
    ensures { IfOk result (λ shown. string_bytes shown ≡ text.book_fields books.now) }
{
    if books.is_empty() {
        return String::from_str(alloc, " -");
    }
    each_book(alloc, books)
}

#[tactic(auto, using(crate::proofs::Joined::regrouped))]
fn each_book(alloc: Global, books: &[BookId]) -> Result<String, AllocError>
    ensures { IfOk result (λ shown. string_bytes shown ≡ flat_map (λ b. field (text.book_text b)) books.now) }
{
    let mut shown = String::new(alloc);
    for book in books {
        let next = book_text(alloc, *book)?;
        write!(shown, " {next}")?;
    }
    Ok(shown)
}

/// Numbers in hexadecimal, each after a space.
#[tactic(auto, using(crate::proofs::Joined::regrouped))]
pub(crate) fn hex_fields(alloc: Global, numbers: &[u64]) -> Result<String, AllocError>
    ensures { IfOk result (λ shown. string_bytes shown ≡ text.hex_fields numbers.now) }
{
    let mut shown = String::new(alloc);
    for number in numbers {
        let value = *number;
        write!(shown, " 0x{value:x}")?;
    }
    Ok(shown)
}
