//! Banks of no states, of equal states and of every state, over 1, 64, 65 and 256 runs.
use crate::listed::states;
use bs_bits::NoMemory;
use bs_break::Bank;
use std::alloc::Global;
use std::test::Fail;

/// The hits of a word, where the bank has the states of some numbers.
fn hits(
    alloc: Global,
    numbers: &[u8],
    planes: &[u64],
    word: usize,
    live: u64,
) -> Result<u64, NoMemory> {
    let wide = planes.len() / 3;
    if planes.len() != 3 * wide || word >= wide {
        return Ok(0);
    }
    let states = states(alloc, numbers)?;
    let bank = Bank::load(alloc, states.as_slice(), 3)?;
    Ok(bank.word_hits(planes, wide, word, live))
}

/// The planes of eight runs in the states 0 to 7.
const EIGHT: [u64; 3] = [0xaa, 0xcc, 0xf0];

/// The planes of 256 runs, of which the last is in state 5.
const LAST: [u64; 12] = [0, 0, 0, 1 << 63, 0, 0, 0, 0, 0, 0, 0, 1 << 63];

/// The planes of 128 runs, of which the one at the front of the second word is in state 3.
const SECOND: [u64; 6] = [0, 1, 0, 1, 0, 0];

/// All runs of a word.
const FULL: u64 = u64::MAX;

/// The numbers of states, planes, a word, the runs in it that last, and those in a listed state.
type Hits<'a> = (&'a [u8], &'a [u64], usize, u64, u64);

/// Banks and their hits.
static BANKS: [Hits<'static>; 12] = [
    (&[], &EIGHT, 0, FULL, 0),
    (&[1, 3], &EIGHT, 0, FULL, 0x0a),
    (&[6, 6, 6], &EIGHT, 0, FULL, 0x40),
    (&[0, 1, 2, 3, 4, 5, 6, 7], &EIGHT, 0, FULL, FULL),
    (&[0, 1, 2, 3, 4, 5, 6, 7], &EIGHT, 0, 0x8001, 0x8001),
    (&[1, 3], &EIGHT, 0, 0xf0, 0),
    (&[0], &EIGHT, 0, 1, 1),
    (&[7], &EIGHT, 0, FULL, 0x80),
    (&[3], &SECOND, 1, FULL, 1),
    (&[3], &SECOND, 0, FULL, 0),
    (&[5], &LAST, 3, FULL, 1 << 63),
    (&[5, 2], &LAST, 2, FULL, 0),
];

/// Whether a bank has its hits.
fn has_hits(
    alloc: Global,
    (numbers, planes, word, live, want): &Hits<'_>,
) -> Result<bool, NoMemory> {
    Ok(hits(alloc, numbers, planes, *word, *live)? == *want)
}

#[test]
fn hits_of_banks_over_planes(rt: HostRuntime) -> Result<(), Fail> {
    for row in &BANKS {
        assert!(rt; has_hits(rt.alloc(), row)?);
    }
    Ok(())
}
