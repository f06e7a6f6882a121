//! The first line of a run: `run NAME CYCLES`.
ghost use Rattle.std.specs.Prelude.{◌≡◌, ◌<◌, ◌+◌, option_map, min, Some, IfOk};
ghost use Rattle.bs_bits.specs.Lines.{words_of, number_of};
ghost use Rattle.bs_stim.specs.StimulusText.{head, first, head_of, is_head as is_head_text, first_of};
ghost use Rattle.bs_bits.specs.Reading.{Answers};
ghost use Rattle.bs_stim.specs.declared.fault.StimFault.TheVariants.{NoMemory as Want};
ghost use Rattle.bs_stim.specs.RunText.{IsFirstLine};

use crate::fault::StimFault;
use crate::limits::{MAX_CYCLES, MAX_NAME, MAX_RUNS};
use bs_bits::{is_canonical, is_name, next_word};

/// The three words of a line, if there are just three.
fn head_words(line: &[u8]) -> Option<(&[u8], &[u8], &[u8])>
    ensures { option_map (λ words. head words.0.now words.1.now words.2.now) result ≡ head_of (words_of line.now) }
{
    let (word, behind) = next_word(line);
    let behind = match behind {
        Some(behind) => behind,
        None => return None,
    };
    let (name, behind) = next_word(behind);
    let behind = match behind {
        Some(behind) => behind,
        None => return None,
    };
    let (cycles, behind) = next_word(behind);
    match behind {
        Some(_) => None,
        None => Some((word, name, cycles)),
    }
}

/// Whether these three words begin a run.
fn is_head(word: &[u8], name: &[u8], cycles: &[u8]) -> bool
    ensures { result ≡ is_head_text (head word.now name.now cycles.now) }
{
    let begins = word == b"run".as_slice();
    let named = is_name(name);
    let counted = is_canonical(cycles);
    begins && named && name.len() <= MAX_NAME && counted
}

/// The number that digits stand for, or `MAX_CYCLES` + 1 for all greater ones.
#[tactic(auto, using(crate::proofs::HeadLemmas::number_more))]
fn cycles_of(digits: &[u8]) -> u32
    ensures { result ≡ min (MAX_CYCLES + 1) (number_of digits.now) }
{
    let mut cycles = 0u32;
    'digits: for digit in digits {
        cycles = (10 * cycles + u32::from(digit.saturating_sub(b'0'))).min(MAX_CYCLES + 1);
    }
    cycles
}

/// What three words say as the first line with this number, after so many runs.
fn read_head<'a>(
    word: &[u8],
    name: &'a [u8],
    cycles: &[u8],
    number: u32,
    begun: usize,
) -> Result<(&'a [u8], u32), StimFault>
    ensures reads { Answers Want (λ f. first f.0.now f.1) result (first_of number begun (Some (head word.now name.now cycles.now))) }
    ensures sound { IfOk result (λ f. IsFirstLine (first f.0.now f.1)) }
    ensures room { IfOk result (λ _. begun < MAX_RUNS) }
{
    if !is_head(word, name, cycles) {
        return Err(StimFault::Line(number));
    }
    if begun >= MAX_RUNS as usize {
        return Err(StimFault::TooManyRuns(number));
    }
    let count = cycles_of(cycles);
    if count > MAX_CYCLES {
        return Err(StimFault::TooManyCycles(number));
    }
    Ok((name, count))
}

/// The name and the number of cycles in the first line with this number, after so many runs.
pub fn read_first(line: &[u8], number: u32, begun: usize) -> Result<(&[u8], u32), StimFault>
    ensures reads { Answers Want (λ f. first f.0.now f.1) result (first_of number begun (head_of (words_of line.now))) }
    ensures sound { IfOk result (λ f. IsFirstLine (first f.0.now f.1)) }
    ensures room { IfOk result (λ _. begun < MAX_RUNS) }
{
    match head_words(line) {
        Some((word, name, cycles)) => read_head(word, name, cycles, number, begun),
        None => Err(StimFault::Line(number)),
    }
}
