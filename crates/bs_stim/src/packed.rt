//! Bits in packed words, each of which has 64, the lowest one first.
ghost use Rattle.std.specs.Prelude.{◌≡◌, ◌<◌, ◌≤◌, ◌+◌, ◌-◌, ◌*◌, ◌^◌, ◌++◌, false, length, replicate, OnOk, OnErr};
ghost use Rattle.bs_stim.specs.Packing.{bit_in, bits_in, is_one, IsClear, HasPut, HasWritten};

use bs_bits::{Bits, NoMemory};

/// The bit at a place.

pub fn bit_of(words: &[u64], place: usize) -> bool
    requires { place < 64 * length words.now }
    ensures { result ≡ bit_in words.now place }
{
    (words[place / 64] >> (place % 64)) & 1 == 1
}

/// Puts words of zeros at the end, up to so many words. They are as before where memory runs out.
pub fn grow(words: &mut Vec<u64>, count: usize) -> Result<(), NoMemory>
    ensures ok { OnOk result (words.new.items ≡ words.old.items ++ replicate (count - length words.old.items) 0) }
    ensures err { OnErr result (words.new.items ≡ words.old.items) }
{
    let more = count.saturating_sub(words.len());
    words.reserve(more)?;
    'words: for _ in 0..more {
        words.push_reserved(0);
    }
    Ok(())
}

/// Writes a bit where a 0 stands.
fn put_bit(words: &mut Vec<u64>, place: usize, bit: bool)
    requires room { place < 64 * length words.old.items }
    requires clear { bit_in words.old.items place ≡ false }
    ensures { HasPut place bit words.old.items words.new.items }
{
    if bit {
        let word = words[place / 64];
        words[place / 64] = word | (1 << (place % 64));
    }
}

/// Writes the bits of characters `0` and `1` from a place on, where no bit is 1.
pub fn write_bits(words: &mut Vec<u64>, start: usize, characters: &[u8])
    requires room { start + length characters.now ≤ 64 * length words.old.items }
    requires small { start + length characters.now < 2 ^ 64 }
    requires clear { IsClear start words.old.items }
    ensures { HasWritten start characters.now (length characters.now) words.old.items words.new.items }
{
    'characters: for place in 0..characters.len() {
        put_bit(words, start + place, characters[place] == b'1');
    }
}

/// Writes the bits from a place on over a list of as many.
pub fn copy_bits(words: &[u64], start: usize, into: &mut Bits)
    requires room { start + length into.old ≤ 64 * length words.now }
    requires small { start + length into.old < 2 ^ 64 }
    ensures { into.new ≡ bits_in words.now start (length into.old) }
{
    'places: for place in 0..into.len() {
        into.set(place, bit_of(words, start + place));
    }
}
