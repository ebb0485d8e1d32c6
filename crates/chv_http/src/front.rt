// Where the front of a stream ends.
ghost use Rattle.std.specs.Prelude.{◌≡◌, ◌≢◌, ℕ, ◌+◌, ◌<◌, ◌≤◌, ◌↔◌, length, slice_index, IsTrue, IfSome, IfNone};
ghost use Rattle.chv_defs_api.specs.HttpFront.{Closes, IsFront};
ghost use Rattle.chv_http.specs.Search.{AreLineEnds, IsText};

const CARRIAGE_RETURN: u8 = b'\r';

const LINE_FEED: u8 = b'\n';

/// The first place from `from` on at which a byte other than CR and LF stands, or `limit`.
pub fn first_text(bytes: &[u8], from: usize, limit: usize) -> usize
    requires ordered { from ≤ limit }
    requires in_range { limit ≤ length bytes.now }
    ensures behind { from ≤ result }
    ensures within { result ≤ limit }
    ensures passed { AreLineEnds bytes.now from result }
    ensures text { result < limit → IsText bytes.now result }
{
    for at in from..limit {
        let byte = bytes[at];
        if byte != CARRIAGE_RETURN && byte != LINE_FEED {
            return at;
        }
    }
    limit
}

/// Whether an empty line ends with the byte at `at`, behind the first text at `text`.
fn closes(bytes: &[u8], text: usize, at: usize) -> bool
    requires in_range { at < length bytes.now }
    requires passed { AreLineEnds bytes.now 0 text }
    requires text { text < at → IsText bytes.now text }
    ensures { IsTrue result ↔ Closes bytes.now (at + 1) }
{
    if bytes[at] != LINE_FEED || at <= text || at - text < 2 {
        return false;
    }
    let before = bytes[at - 1];
    before == LINE_FEED
        || (before == CARRIAGE_RETURN && at - text > 2 && bytes[at - 2] == LINE_FEED)
}

/// The end of the front, where no front ends before or at `from`, and it ends at or before `limit`.
pub fn end_of_front(bytes: &[u8], text: usize, from: usize, limit: usize) -> Option<usize>
    requires ordered { from ≤ limit }
    requires in_range { limit ≤ length bytes.now }
    requires passed { AreLineEnds bytes.now 0 text }
    requires text { text < limit → IsText bytes.now text }
    requires none_before { (n : ℕ) → n ≤ from → ¬ (Closes bytes.now n) }
    ensures found { IfSome result (λ n. IsFront bytes.now n × (n ≤ limit)) }
    ensures none { IfNone result ((n : ℕ) → n ≤ limit → ¬ (Closes bytes.now n)) }
{
    for at in from..limit {
        if closes(bytes, text, at) {
            return Some(at + 1);
        }
    }
    None
}
