//! What is read of a wave's text so far, and what a line gives at its place.
ghost use Rattle.std.specs.Prelude.{◌≡◌, IfOk, option_map, Some, None, if◌then◌else◌};
ghost use Rattle.bs_wave.specs.PartialWave.{begun_in};
ghost use Rattle.bs_wave.specs.WaveReading.{taken, first_place, with_moment};
ghost use Rattle.bs_wave.specs.declared.place.TextPlace.TheVariants as places;

use crate::forms::{Change, change_in, is_text, is_time, net_key, value_for};
use crate::place::TextPlace;
use crate::value::Value;
use bs_bits::{List, NoMemory};
use std::alloc::Global;

/// What is read so far: keys, whole moments, and the values of the moment under way.
#[derive(Drop)]
pub struct PartialWave {
    pub keys: List<List<u8>>,
    pub moments: List<List<Value>>,
    pub values: Vec<Value>,
}

/// The place, where it is allowed.
fn if_allowed(allowed: bool, place: TextPlace) -> Option<TextPlace>
    ensures { result ≡ (if allowed then Some place else None) }
{
    if allowed { Some(place) } else { None }
}

/// The place behind so many values of the first moment.
fn first_place(count: usize, done: usize) -> TextPlace
    ensures { result ≡ first_place count done }
{
    if done == count {
        TextPlace::Change(done)
    } else {
        TextPlace::First
    }
}

/// A line as a list of bytes.
fn bytes_of(alloc: Global, text: &[u8]) -> Result<List<u8>, NoMemory>
    ensures { IfOk result (λ bytes. bytes ≡ text.now) }
{
    Ok(List::of(text.to_vec(alloc)?))
}

/// The line of a net, or `$upscope $end`.
fn take_net(
    alloc: Global,
    begun: &mut PartialWave,
    line: &[u8],
) -> Result<Option<TextPlace>, NoMemory>
    ensures { IfOk result (λ next. option_map (λ place. (place, begun_in begun.new)) next ≡ taken places.Net (begun_in begun.old) line.now) }
{
    if is_text(line, b"$upscope $end") {
        return Ok(Some(TextPlace::Definitions));
    }
    match net_key(line, begun.keys.len()) {
        None => Ok(None),
        Some(key) => {
            begun.keys.push(bytes_of(alloc, key)?)?;
            Ok(Some(TextPlace::Net))
        }
    }
}

/// The value of the next net at the first moment.
fn take_first(begun: &mut PartialWave, line: &[u8]) -> Result<Option<TextPlace>, NoMemory>
    ensures { IfOk result (λ next. option_map (λ place. (place, begun_in begun.new)) next ≡ taken places.First (begun_in begun.old) line.now) }
{
    match value_for(line, begun.values.len()) {
        None => Ok(None),
        Some(value) => {
            let done = begun.values.len() + 1;
            begun.values.push(value)?;
            Ok(Some(first_place(begun.keys.len(), done)))
        }
    }
}

/// The moment under way is whole, and the next one begins with its values.
fn end_moment(alloc: Global, begun: &mut PartialWave) -> Result<(), NoMemory>
    ensures { IfOk result (λ _. begun_in begun.new ≡ with_moment (begun_in begun.old)) }
{
    let values = begun.values.as_slice().to_vec(alloc)?;
    begun.moments.push(List::of(values))?;
    Ok(())
}

/// The next moment, or another value of a net.
fn take_change(
    alloc: Global,
    begun: &mut PartialWave,
    next: usize,
    line: &[u8],
) -> Result<Option<TextPlace>, NoMemory>
    ensures { IfOk result (λ reached. option_map (λ place. (place, begun_in begun.new)) reached ≡ taken (places.Change next) (begun_in begun.old) line.now) }
{
    if is_time(line, begun.moments.slice().len() as u64 + 1) {
        end_moment(alloc, begun)?;
        return Ok(Some(TextPlace::Change(0)));
    }
    match change_in(line, next, begun.values.as_slice()) {
        None => Ok(None),
        Some(change) => {
            begun.values[change.net] = change.value;
            Ok(Some(TextPlace::Change(change.net + 1)))
        }
    }
}

/// The place behind a line, which is one that may stand at its place.
pub fn take(
    alloc: Global,
    place: TextPlace,
    begun: &mut PartialWave,
    line: &[u8],
) -> Result<Option<TextPlace>, NoMemory>
    ensures { IfOk result (λ next. option_map (λ place. (place, begun_in begun.new)) next ≡ taken place (begun_in begun.old) line.now) }
{
    match place {
        TextPlace::Timescale => Ok(if_allowed(
            is_text(line, b"$timescale 1ns $end"),
            TextPlace::Scope,
        )),
        TextPlace::Scope => Ok(if_allowed(
            is_text(line, b"$scope module trace $end"),
            TextPlace::Net,
        )),
        TextPlace::Net => take_net(alloc, begun, line),
        TextPlace::Definitions => Ok(if_allowed(
            is_text(line, b"$enddefinitions $end"),
            TextPlace::Start,
        )),
        TextPlace::Start => Ok(if_allowed(is_time(line, 0), first_place(begun.keys.len(), 0))),
        TextPlace::First => take_first(begun, line),
        TextPlace::Change(next) => take_change(alloc, begun, next, line),
    }
}
