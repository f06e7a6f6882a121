//! First moments: over as many runs as the planes hold, of runs that end early, of lists of no, of equal and of all states,
//! and with few kept cycles.
ghost use Rattle.std.specs.Prelude.{◌≡◌, length, All};
ghost use Rattle.bs_net.specs.Netlist.{circuit};

use crate::listed::states;
use crate::recorded::{Pulse, choice, runs, shift_register, stimulus};
use bs_bits::{Bits, NoMemory};
use bs_chip::Chip;
use bs_net::Netlist;
use bs_scan::Choice;
use bs_stim::Runs;
use std::alloc::Global;
use std::test::Fail;

/// A run from 1 and a cycle from 0.
type Place = (u32, u32);

/// The first moment of a list, asked for so often that looks begin where the index of states says.
fn asked(alloc: Global, chip: &mut Chip<'_>, list: &[Bits]) -> Result<Option<Place>, NoMemory>
    requires width { length chip.old.recording.circuit.flops ≡ 3 }
    requires states { All (λ s. length s ≡ 3) list.now }
{
    let mut found = None;
    'times: for _ in 0..100 {
        found = match chip.first(alloc, list)? {
            Some(hit) => Some((hit.run, hit.cycle)),
            None => None,
        };
    }
    Ok(found)
}

/// The first moment of a list, where the planes of kept cycles take at most so many bytes.
fn first(
    alloc: Global,
    net: &Netlist,
    choice: &Choice,
    runs: &Runs,
    list: &[Bits],
    bytes: usize,
) -> Result<Option<Place>, NoMemory>
    requires width { length (circuit net.now).flops ≡ 3 }
    requires choice { choice.now.width ≡ length (circuit net.now).flops }
    requires runs { runs.now.width ≡ length (circuit net.now).inputs }
    requires states { All (λ s. length s ≡ 3) list.now }
{
    let mut chip = Chip::with_bound(alloc, net, choice, runs, bytes)?;
    asked(alloc, &mut chip, list)
}

/// How many bytes the planes of kept cycles may take.
static BOUNDS: [usize; 3] = [0, 400, usize::MAX];

/// Whether this is the first moment of a list, however many cycles are kept.
fn is_first(
    alloc: Global,
    net: &Netlist,
    choice: &Choice,
    runs: &Runs,
    list: &[Bits],
    want: Option<Place>,
) -> Result<bool, NoMemory>
    requires states { All (λ s. length s ≡ 3) list.now }
{
    if net.width() != 3 || choice.width() != 3 || net.data_inputs().len() != runs.width() {
        return Ok(false);
    }
    for bytes in &BOUNDS {
        if first(alloc, net, choice, runs, list, *bytes)? != want {
            return Ok(false);
        }
    }
    Ok(true)
}

/// Whether this is the first moment of the states of some numbers in the runs of a text.
fn is_found(
    alloc: Global,
    net: &Netlist,
    choice: &Choice,
    text: &[u8],
    numbers: &[u8],
    want: Option<Place>,
) -> Result<bool, NoMemory> {
    let list = states(alloc, numbers)?;
    match runs(alloc, text) {
        Some(runs) => is_first(alloc, net, choice, &runs, list.as_slice(), want),
        None => Ok(false),
    }
}

/// The same with the signature of no items.
fn is_of_net(
    alloc: Global,
    net: &Netlist,
    text: &[u8],
    numbers: &[u8],
    want: Option<Place>,
) -> Result<bool, NoMemory> {
    match choice(alloc, net) {
        Some(choice) => is_found(alloc, net, &choice, text, numbers, want),
        None => Ok(false),
    }
}

/// The same of three flip-flops in a row.
fn is_row(
    alloc: Global,
    text: &[u8],
    numbers: &[u8],
    want: Option<Place>,
) -> Result<bool, NoMemory> {
    match shift_register(alloc) {
        Some(net) => is_of_net(alloc, &net, text, numbers, want),
        None => Ok(false),
    }
}

/// How many runs, what all but the last are, what the last is, the numbers of the listed states, and their first moment.
type First<'a> = (u32, Pulse, Pulse, &'a [u8], Option<Place>);

/// Whether a list has its first moment.
fn is_first_of(
    alloc: Global,
    (count, each, last, numbers, want): &First<'_>,
) -> Result<bool, NoMemory> {
    let text = stimulus(alloc, *count, *each, *last)?;
    is_row(alloc, &text, numbers, *want)
}

/// Lists and their first moments: a one comes to the first flip-flop one cycle later, to the second one two, and to the third
/// one three.
static MOMENTS: [First<'static>; 15] = [
    (1, (0, 0), (9, 4), &[2], Some((1, 6))),
    (63, (9, 9), (9, 4), &[2], Some((63, 6))),
    (64, (0, 0), (9, 4), &[4, 2], Some((64, 6))),
    (65, (0, 0), (9, 4), &[4], Some((65, 7))),
    (128, (3, 3), (9, 4), &[1], Some((128, 5))),
    (129, (3, 3), (9, 4), &[1, 1, 1], Some((129, 5))),
    (256, (0, 0), (9, 4), &[4], Some((256, 7))),
    (256, (9, 4), (9, 3), &[2], Some((256, 5))),
    (256, (9, 4), (9, 4), &[2], Some((1, 6))),
    (129, (5, 4), (9, 6), &[2], Some((129, 8))),
    (65, (5, 4), (0, 0), &[2], None),
    (256, (0, 0), (0, 0), &[0], Some((1, 0))),
    (128, (0, 0), (9, 4), &[0, 1, 2, 3, 4, 5, 6, 7], Some((1, 0))),
    (65, (9, 4), (9, 4), &[], None),
    (64, (9, 4), (9, 7), &[3, 5, 6, 7], None),
];

#[test]
fn first_moments_of_many_runs(rt: HostRuntime) -> Result<(), Fail> {
    for row in &MOMENTS {
        assert!(rt; is_first_of(rt.alloc(), row)?);
    }
    Ok(())
}
