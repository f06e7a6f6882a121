//! Bytes go out to a writer, as many at a time as it takes.
ghost use Rattle.std.specs.Prelude.{◌≡◌, ◌≤◌, length, take};
ghost use Rattle.std.specs.Io.KnownBytes.{Appends};
ghost use Rattle.bs_outside.specs.Putting.{Puts};
ghost use Rattle.bs_outside.specs.Opening.{put_faults};

use crate::sink::Put;
use std::io::Write;

/// One write: how many bytes went out, none where it failed.
fn write_piece<W: Write>(writer: &mut W, bytes: &[u8]) -> usize
    ensures within { result ≤ length bytes.now }
    ensures bytes { Appends (W.contents writer.old) (W.contents writer.new) (take result bytes.now) }
{
    match writer.write(bytes) {
        Ok(count) => count,
        Err(_) => 0,
    }
}

/// Writes the bytes. A write that fails, or takes nothing of a piece that is not empty, is the last, and raises the count
/// of faults.
pub fn write_whole<W: Write>(writer: &mut W, faults: &mut u64, bytes: &[u8]) -> Put
    ensures puts { Puts (W.contents writer.old) (W.contents writer.new) faults.old faults.new bytes.now result }
    ensures counts { faults.new ≡ put_faults faults.old result }
{
    let mut at = 0;
    while at < bytes.len() {
        let count = write_piece(writer, &bytes[at..]);
        if count == 0 {
            *faults = faults.saturating_add(1);
            return Put::Failed(at);
        }
        at += count;
    }
    Put::Done
}
