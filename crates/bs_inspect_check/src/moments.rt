//! The value changes of a text, moment by moment.
ghost use Rattle.std.specs.Prelude.{◌≡◌, ◌⊎◌, ◌<◌, ◌≤◌, ◌+◌, ◌^◌, ◌++◌, ◌∷◌, [], Some, length, map, IfOk, MatchResult, OnOk};
ghost use Rattle.bs_bits.specs.Reading.{Answers};
ghost use Rattle.bs_vcd_header.specs.declared.fault.VcdFault.TheVariants.{NoMemory as Want};
ghost use Rattle.bs_vcd_header.specs.Tokens.{tokens_from};
ghost use Rattle.bs_vcd.specs.History.{Plain, before, change_in, history_from, mode_in, step, stopped};
ghost use Rattle.bs_vcd.specs.Watching.{may_end};
ghost use Rattle.bs_inspect_check.specs.Taking.{history_at, last_line, later, left, moment_in, turn_in, turned};

use bs_bits::NoMemory;
use bs_vcd::{ValueChange, WordEffect, WordPlace, word_step};
use bs_vcd_header::{VcdFault, next_token};

/// Where a moment begins: its time, and the text behind that, whose first line has this number.
#[derive(Clone, Copy)]
pub struct MomentStart<'a> {
    pub time: u64,
    pub line: u64,
    pub rest: &'a [u8],
}

/// Where the next word stands, and the time that begins before it, if a later one does.
#[derive(Clone, Copy)]
pub struct NextTime<'a> {
    pub place: WordPlace<'a>,
    pub next: Option<u64>,
}

/// Puts a change at the end.
fn put_change<'a>(
    change: ValueChange<'a>,
    changes: &mut Vec<ValueChange<'a>>,
) -> Result<(), NoMemory>
    ensures { OnOk result (map change_in changes.new.items ≡ map change_in changes.old.items ++ change_in change.entry ∷ []) }
{
    changes.push(change)?;
    Ok(())
}

/// A time, where it is another one.
fn later(time: u64, next: u64) -> Option<u64>
    ensures { result ≡ later time next }
{
    if next == time { None } else { Some(next) }
}

/// Takes a word, which stands in the line with this number.
fn take_word<'a>(
    time: u64,
    line: u64,
    place: WordPlace<'a>,
    text: &'a [u8],
    changes: &mut Vec<ValueChange<'a>>,
) -> Result<NextTime<'a>, VcdFault>
    ensures { Answers Want (λ turn. turn_in turn changes.new.items) result (turned time line (map change_in changes.old.items) (step (mode_in place.entry) text.now)) }
{
    match word_step(place, text) {
        None => Err(VcdFault::Line(line)),
        Some(WordEffect::Goes(next)) => Ok(NextTime {
            place: next,
            next: None,
        }),
        Some(WordEffect::Changes(change)) => {
            put_change(change, changes)?;
            Ok(NextTime {
                place: WordPlace::Plain,
                next: None,
            })
        }
        Some(WordEffect::Begins(next)) => {
            if next < time {
                return Err(VcdFault::Line(line));
            }
            Ok(NextTime {
                place: WordPlace::Plain,
                next: later(time, next),
            })
        }
        Some(WordEffect::Stops) => Err(VcdFault::DumpOff(line)),
    }
}

/// Whether a text may end here.
fn may_end(place: WordPlace<'_>) -> bool
    ensures { result ≡ may_end (mode_in place.entry) }
{
    match place {
        WordPlace::Plain => true,
        _ => false,
    }
}

/// Takes the words of a moment, and answers where the next one begins.
#[tactic(auto, using(crate::proofs::MomentLemmas::word_taken, crate::proofs::MomentLemmas::word_last, crate::proofs::MomentLemmas::word_faulty, crate::proofs::MomentLemmas::text_ends, crate::proofs::MomentLemmas::text_faulty))]
pub fn take_moment<'a>(
    spot: MomentStart<'a>,
    changes: &mut Vec<ValueChange<'a>>,
) -> Result<Option<MomentStart<'a>>, VcdFault>
    requires lines { spot.line + length spot.rest.now < 2 ^ 64 }
    requires none { changes.old.items ≡ [] }
    ensures is { MatchResult result (λ next. history_at (Some spot.entry) ≡ before (moment_in spot.entry.time changes.new.items) (history_at next)) (λ fault. (fault ≡ Want) ⊎ (history_at (Some spot.entry) ≡ stopped fault)) }
    ensures less { IfOk result (λ next. left next < left (Some spot.entry)) }
    ensures lines { IfOk result (λ next. last_line next < 2 ^ 64) }
{
    let mut place = WordPlace::Plain;
    let mut line = spot.line;
    let mut rest = spot.rest;
    'words: while let Some((token, behind)) = next_token(line, rest) {
        line = token.line;
        rest = behind;
        let turn = take_word(spot.time, token.line, place, token.text, changes)?;
        match turn.next {
            Some(next) => {
                return Ok(Some(MomentStart {
                    time: next,
                    line,
                    rest,
                }));
            }
            None => place = turn.place,
        }
    }
    if !may_end(place) {
        return Err(VcdFault::Ended);
    }
    Ok(None)
}
