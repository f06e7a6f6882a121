//! Where a byte of a text stands: its line and its column.
ghost use Rattle.std.specs.Prelude.{◌≡◌, ◌<◌, ◌≤◌, ◌+◌, ◌-◌, ◌==◌, ◌⊎◌, ℕ, length, slice_index, take, count_by, true, false};
ghost use Rattle.bs_net_names.specs.Spots.{IsSpot, is_feed};

/// A place in a text. Line and column count from 1, and a column counts bytes. The line's bytes are those from `start` up to `end`, without
/// its line feed.
#[derive(Clone, Copy)]
pub struct Spot {
    pub line: usize,
    pub column: usize,
    pub start: usize,
    pub end: usize,
}

/// How many line feeds there are.
fn feeds(text: &[u8]) -> usize
    ensures { result ≡ count_by is_feed text.now }
{
    text.iter().filter(|&&byte| byte == b'\n').count()
}

/// The place behind the last line feed before a place, or 0.
fn start_of(text: &[u8], at: usize) -> usize
    requires { at ≤ length text.now }
    ensures within { result ≤ at }
    ensures begins { (result ≡ 0) ⊎ (0 < result × ((slice_index text.now (result - 1) == 10) ≡ true)) }
    ensures inside { (k : ℕ) → result ≤ k → k < at → (slice_index text.now k == 10) ≡ false }
{
    let mut start = at;
    'bytes: while start > 0 && text[start - 1] != b'\n' {
        start -= 1;
    }
    start
}

/// The place of the first line feed from a place on, or the text's length.
fn end_of(text: &[u8], at: usize) -> usize
    requires { at ≤ length text.now }
    ensures after { at ≤ result }
    ensures within { result ≤ length text.now }
    ensures ends { (result ≡ length text.now) ⊎ ((slice_index text.now result == 10) ≡ true) }
    ensures inside { (k : ℕ) → at ≤ k → k < result → (slice_index text.now k == 10) ≡ false }
{
    let mut end = at;
    'bytes: while end < text.len() && text[end] != b'\n' {
        end += 1;
    }
    end
}

/// Where the byte at a place stands; the text's length is the place behind its last byte.
pub fn spot_of(text: &[u8], at: usize) -> Spot
    requires { at ≤ length text.now }
    ensures { IsSpot text.now at result }
{
    let start = start_of(text, at);
    let end = end_of(text, at);
    let line = feeds(&text[..at]) + 1;
    Spot {
        line,
        column: at - start + 1,
        start,
        end,
    }
}
