//! The finished text goes out, each line in a put of its own.
ghost use Rattle.std.specs.Prelude.{◌≡◌, ◌≢◌, ◌<◌, ◌≤◌, ◌+◌, ◌-◌, ◌==◌, ◌∷◌, ℕ, length, take, drop, slice_index, true, false};
ghost use Rattle.bs_outside.specs.Putting.{Puts};
ghost use Rattle.bs_outside.specs.Delivery.{CountsPuts, Delivers, put_lines_of, PutsLines, PutsSoMany, PutsTo};

use crate::reply::Reply;
use crate::sink::{Put, Sink};
use crate::status::Status;

/// The place of the first line feed, or the text's length where there is none.
fn feed_place(text: &[u8]) -> usize
    ensures within { result ≤ length text.now }
    ensures before { (k : ℕ) → k < result → (slice_index text.now k == 10) ≡ false }
    ensures ended { result < length text.now → (slice_index text.now result == 10) ≡ true }
{
    for (i, byte) in text.iter().enumerate() {
        if *byte == b'\n' {
            return i;
        }
    }
    text.len()
}

/// How many bytes the first line has, with its line feed.
fn line_len(text: &[u8]) -> usize
    requires { 0 < length text.now }
    ensures some { 0 < result }
    ensures within { result ≤ length text.now }
    ensures line { put_lines_of text.now ≡ take result text.now ∷ put_lines_of (drop result text.now) }
{
    let at = feed_place(text);
    if at < text.len() { at + 1 } else { text.len() }
}

/// The place behind the next line.
fn line_end(text: &[u8], at: usize) -> usize
    requires { at < length text.now }
    ensures after { at < result }
    ensures within { result ≤ length text.now }
    ensures line { put_lines_of (drop at text.now) ≡ take (result - at) (drop at text.now) ∷ put_lines_of (drop result text.now) }
{
    at + line_len(&text[at..])
}

/// Puts the lines of a text, and counts those that went out. After one that fails there is no other.
fn put_lines<K: Sink>(text: &[u8], out: &mut K, done: &mut usize) -> Put
    requires { done.old ≡ 0 }
    ensures puts { Puts (K.written out.old) (K.written out.new) (K.faults out.old) (K.faults out.new) text.now result }
    ensures lines { PutsTo K.leads out.old out.new text.now result }
    ensures counted { PutsSoMany K.leads out.old out.new text.now done.new result }
{
    let mut at = 0;
    while at < text.len() {
        let end = line_end(text, at);
        match out.put(&text[at..end]) {
            Put::Done => {
                at = end;
                *done += 1;
            }
            Put::Failed(count) => return Put::Failed(at + count),
        }
    }
    Put::Done
}

/// How a text was delivered: the status, and how many lines went out before one that failed.
#[derive(Clone, Copy, Debug)]
pub struct Delivered {
    pub status: Status,
    pub lines: usize,
}

/// Writes the text of an answer, a put for each line, and gives the answer's status. A put that fails is the last, and
/// the status is then `WriteFault`.
pub fn deliver_counted<K: Sink>(answer: &Reply, out: &mut K) -> Delivered
    requires { answer.now.status ≢ Status.WriteFault }
    ensures sent { Delivers answer.now.status answer.now.text.items (K.written out.old) (K.written out.new) (K.faults out.old) (K.faults out.new) result.status }
    ensures lines { PutsLines K.leads out.old out.new answer.now.text.items result.status }
    ensures counted { CountsPuts K.leads out.old out.new answer.now.text.items result.lines result.status }
{
    let mut lines = 0;
    match put_lines(&answer.text, out, &mut lines) {
        Put::Done => Delivered {
            status: answer.status,
            lines,
        },
        Put::Failed(_) => Delivered {
            status: Status::WriteFault,
            lines,
        },
    }
}

/// The same without the count.
pub fn deliver<K: Sink>(answer: &Reply, out: &mut K) -> Status
    requires { answer.now.status ≢ Status.WriteFault }
    ensures sent { Delivers answer.now.status answer.now.text.items (K.written out.old) (K.written out.new) (K.faults out.old) (K.faults out.new) result }
    ensures lines { PutsLines K.leads out.old out.new answer.now.text.items result }
{
    deliver_counted(answer, out).status
}
