//! A wave, read from its text line by line.
ghost use Rattle.std.specs.Prelude.{◌≡◌, IfOk};
ghost use Rattle.bs_bits.specs.Reading.{Answers};
ghost use Rattle.bs_wave.specs.PartialWave.{begun_in};
ghost use Rattle.bs_wave.specs.WaveReading.{ended, followed, may_end, nothing_read, wave_in, whole};
ghost use Rattle.bs_wave.specs.declared.fault.WaveFault.TheVariants.{NoMemory as Want};

use crate::fault::WaveFault;
use crate::partial_wave::{PartialWave, take};
use crate::place::TextPlace;
use crate::wave::Wave;
use bs_bits::{List, NoMemory, whole_line};
use std::alloc::Global;

/// What is read before the first line.
fn nothing(alloc: Global) -> PartialWave
    ensures { begun_in result ≡ nothing_read }
{
    PartialWave {
        keys: List::new(alloc),
        moments: List::new(alloc),
        values: Vec::new(alloc),
    }
}

/// The place behind the line with this number.
fn follow(
    alloc: Global,
    number: u64,
    place: TextPlace,
    begun: &mut PartialWave,
    line: &[u8],
) -> Result<TextPlace, WaveFault>
    ensures { Answers Want (λ next. (next, begun_in begun.new)) result (followed number place (begun_in begun.old) line.now) }
{
    match take(alloc, place, begun, line)? {
        Some(next) => Ok(next),
        None => Err(WaveFault::Line(number)),
    }
}

/// Whether a text may end at a place.
fn may_end(place: TextPlace) -> bool
    ensures { result ≡ may_end place }
{
    matches!(place, TextPlace::Change(_))
}

/// The wave whose moments these are, with the moment under way as the last one.
fn wave_of(begun: PartialWave) -> Result<Wave, NoMemory>
    ensures { IfOk result (λ wave. wave ≡ whole (begun_in begun)) }
{
    let mut moments = begun.moments;
    moments.push(List::of(begun.values))?;
    Ok(Wave {
        keys: begun.keys,
        moments,
    })
}

/// The wave, where the text ends at its place and behind its last line.
fn finish(number: u64, place: TextPlace, begun: PartialWave, rest: &[u8]) -> Result<Wave, WaveFault>
    ensures { Answers Want (λ wave. wave) result (ended number place (begun_in begun) rest.now) }
{
    if !may_end(place) {
        return Err(WaveFault::Line(number));
    }
    if !rest.is_empty() {
        return Err(WaveFault::Line(number));
    }
    let wave = wave_of(begun)?;
    Ok(wave)
}

/// The wave whose text this is, read line by line.
fn read_lines(alloc: Global, bytes: &[u8]) -> Result<Wave, WaveFault>
    ensures { Answers Want (λ wave. wave) result (wave_in bytes.now) }
{
    let mut begun = nothing(alloc);
    let mut place = TextPlace::Timescale;
    let mut number = 1u64;
    let mut rest = bytes;
    'lines: while let Some((line, behind)) = whole_line(rest) {
        place = follow(alloc, number, place, &mut begun, line)?;
        number += 1;
        rest = behind;
    }
    finish(number, place, begun, rest)
}

impl Wave {
    /// The wave whose text this is, or the first line that cannot stand in its place (docs/FORMATS.md, "Waveform"): a line
    /// without a line feed cannot, and where lines are missing it is one past the last.
    pub fn read(alloc: Global, bytes: &[u8]) -> Result<Wave, WaveFault>
        ensures { Answers Want (λ wave. wave) result (wave_in bytes.now) }
    {
        read_lines(alloc, bytes)
    }
}
