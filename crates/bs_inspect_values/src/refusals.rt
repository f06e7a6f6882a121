//! The words of a refusal line, for each fault of the readers (docs/FORMATS.md, "Refusal lines").
ghost use Rattle.std.specs.Prelude.{◌≡◌, ◌++◌, codes, decimal, map, IfOk, IfErr};
ghost use Rattle.bs_inspect_names.specs.declared.fault.MapFault.TheVariants.{NoMemory as MapWant};
ghost use Rattle.bs_vcd_header.specs.declared.fault.VcdFault.TheVariants.{NoMemory as VcdWant};
ghost use Rattle.bs_outside.specs.declared.file_fetch.Refusal.TheVariants.{NoMemory as Want};
ghost use Rattle.bs_top_files.specs.Refusals.{HasWords};
ghost use Rattle.bs_inspect_values.specs.Words.{key_at, map_words, vcd_words};

use bs_bits::{NoMemory, push_number, push_piece};
use bs_inspect_names::MapFault;
use bs_outside::Refusal;
use bs_top_files::worded;
use bs_vcd_header::VcdFault;
use std::alloc::Global;

// ---- words of one form

/// The refusal with these words; out of memory stays that.
pub fn refusal(words: Result<Vec<u8>, NoMemory>) -> Refusal
    ensures why { IfOk words (λ why. HasWords why.items result) }
    ensures want { IfErr words (λ _. result ≡ Want) }
{
    match words {
        Ok(why) => Refusal::Why(why),
        Err(_) => Refusal::NoMemory,
    }
}

/// A word and a number.
fn number_words(alloc: Global, word: &[u8], number: u64) -> Result<Vec<u8>, NoMemory>
    ensures { IfOk result (λ why. why.items ≡ word.now ++ decimal number) }
{
    let mut why = Vec::new(alloc);
    push_piece(&mut why, word)?;
    push_number(&mut why, number)?;
    Ok(why)
}

/// The refusal of a word and a number.
pub fn numbered(alloc: Global, word: &[u8], number: u64) -> Refusal
    ensures { HasWords (word.now ++ decimal number) result }
{
    refusal(number_words(alloc, word, number))
}

// ---- a simulation

/// Why a text gives no names.
pub fn map_refusal(alloc: Global, fault: MapFault) -> Refusal
    ensures why { HasWords (map_words fault) result }
    ensures want { fault ≡ MapWant → result ≡ Want }
{
    match fault {
        MapFault::Line(line) => numbered(alloc, b"Line ", line),
        MapFault::Unknown(line) => numbered(alloc, b"Unknown ", line),
        MapFault::Twice(line) => numbered(alloc, b"Twice ", line),
        MapFault::Range(line) => numbered(alloc, b"Range ", line),
        MapFault::NoMemory => Refusal::NoMemory,
    }
}

/// The key of the input with this number.
#[tactic(auto, using(crate::proofs::KeyLemmas::key_there, crate::proofs::KeyLemmas::key_past))]
pub fn key_at<'a>(keys: &[&'a [u8]], input: u64) -> &'a [u8]
    ensures { result.now ≡ key_at (map (λ k. k.now) keys.now) input }
{
    let place = input as usize;
    if place < keys.len() { keys[place] } else { b"" }
}

/// A word and the key of an input.
fn input_words(alloc: Global, word: &[u8], key: &[u8]) -> Result<Vec<u8>, NoMemory>
    ensures { IfOk result (λ why. why.items ≡ word.now ++ key.now) }
{
    let mut why = Vec::new(alloc);
    push_piece(&mut why, word)?;
    push_piece(&mut why, key)?;
    Ok(why)
}

/// The key of an input, and a time at which it is not known.
fn unknown_words(alloc: Global, key: &[u8], time: u64) -> Result<Vec<u8>, NoMemory>
    ensures { IfOk result (λ why. why.items ≡ codes "Unknown " ++ (key.now ++ (codes " " ++ decimal time))) }
{
    let mut why = input_words(alloc, b"Unknown ", key)?;
    push_piece(&mut why, b" ")?;
    push_number(&mut why, time)?;
    Ok(why)
}

/// Why values of a simulator are refused. An input or a flip-flop is named by its key.
pub fn vcd_refusal(alloc: Global, fault: VcdFault, keys: &[&[u8]]) -> Refusal
    ensures why { HasWords (vcd_words (map (λ k. k.now) keys.now) fault) result }
    ensures want { fault ≡ VcdWant → result ≡ Want }
{
    match fault {
        VcdFault::Line(line) => numbered(alloc, b"Line ", line),
        VcdFault::Ended => worded(alloc, b"Ended"),
        VcdFault::NoClock => worded(alloc, b"NoClock"),
        VcdFault::NoInput(i) => refusal(input_words(alloc, b"NoInput ", key_at(keys, i))),
        VcdFault::Unknown(i, time) => refusal(unknown_words(alloc, key_at(keys, i), time)),
        VcdFault::NoCycle(count) => numbered(alloc, b"NoCycle ", count),
        VcdFault::DumpOff(line) => numbered(alloc, b"DumpOff ", line),
        VcdFault::NoTime(last) => numbered(alloc, b"NoTime ", last),
        VcdFault::Late(begin) => numbered(alloc, b"Late ", begin),
        VcdFault::NoMemory => Refusal::NoMemory,
    }
}
