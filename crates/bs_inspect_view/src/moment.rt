//! The moments of a waveform.
ghost use Rattle.std.specs.Prelude.{◌≡◌, ◌<◌, ◌++◌, Some, length, map, slice_get, OnOk, option_map};
ghost use Rattle.std.specs.List.{flat_map, range_with_len};
ghost use Rattle.bs_bits.specs.Lines.{line};
ghost use Rattle.bs_inspect_view.specs.Signals.{signal_in};
ghost use Rattle.bs_inspect_view.specs.View.{changes, moment_at, moment_before, moment_lines, moment_text};
ghost use Rattle.bs_wave.specs.WaveText.{time_line};

use crate::recorded::push_recorded;
use crate::signal::Signal;
use crate::value::push_changes;
use bs_bits::{List, NoMemory, end_line, push_number, push_piece};
use bs_wave::Value;

/// The values of a moment, if there is such a moment.
fn values_at(moments: &List<List<Value>>, t: usize) -> Option<&[Value]>
    ensures { option_map (λ m. m.now) result ≡ slice_get moments.now t }
{
    if t < moments.len() {
        Some(moments.get(t).slice())
    } else {
        None
    }
}

/// The values of the moment before, which the first has none of.
fn moment_before(moments: &List<List<Value>>, t: usize) -> Option<&[Value]>
    ensures { option_map (λ m. m.now) result ≡ moment_before moments.now t }
{
    if t == 0 {
        return None;
    }
    values_at(moments, t - 1)
}

/// Appends a time.
fn push_time(text: &mut Vec<u8>, time: u64) -> Result<(), NoMemory>
    ensures { OnOk result (text.new.items ≡ text.old.items ++ line (time_line time)) }
{
    push_piece(text, b"#")?;
    push_number(text, time)?;
    end_line(text)
}

/// Appends a moment: its time, and the signals that have changed.
fn push_moment(
    text: &mut Vec<u8>,
    signals: &[Signal<'_>],
    time: u64,
    before: Option<&[Value]>,
    now: &[Value],
) -> Result<(), NoMemory>
    ensures { OnOk result (text.new.items ≡ text.old.items ++ moment_text (map signal_in signals.now) time (option_map (λ b. b.now) before.entry) (Some now.now)) }
{
    push_time(text, time)?;
    push_changes(text, signals, before, now)
}

/// Appends the moment at a place, where the first stands at a time.
fn push_at(
    text: &mut Vec<u8>,
    signals: &[Signal<'_>],
    from: u64,
    moments: &List<List<Value>>,
    t: usize,
) -> Result<(), NoMemory>
    ensures { OnOk result (text.new.items ≡ text.old.items ++ moment_at (map signal_in signals.now) from moments.now t) }
{
    match (values_at(moments, t), from.checked_add(t as u64)) {
        (Some(now), Some(time)) => push_moment(text, signals, time, moment_before(moments, t), now),
        (Some(_), None) => Err(NoMemory),
        (None, _) => Ok(()),
    }
}

/// Appends the moment at a place, and the run and the cycle at which its state was recorded.
fn push_moment_lines(
    text: &mut Vec<u8>,
    signals: &[Signal<'_>],
    from: u64,
    recorded: &[Option<(u32, u32)>],
    moments: &List<List<Value>>,
    t: usize,
) -> Result<(), NoMemory>
    ensures { OnOk result (text.new.items ≡ text.old.items ++ moment_lines (map signal_in signals.now) from recorded.now moments.now t) }
{
    push_at(text, signals, from, moments, t)?;
    push_recorded(text, recorded, t)
}

/// Appends the moments, where the first stands at a time.
#[tactic(auto, using(bs_bits::proofs::RangeLemmas::places_step))]
pub(crate) fn push_moments(
    text: &mut Vec<u8>,
    signals: &[Signal<'_>],
    from: u64,
    recorded: &[Option<(u32, u32)>],
    moments: &List<List<Value>>,
) -> Result<(), NoMemory>
    ensures { OnOk result (text.new.items ≡ text.old.items ++ flat_map (moment_lines (map signal_in signals.now) from recorded.now moments.now) (range_with_len 0 (length moments.now))) }
{
    'moments: for t in 0..moments.len() {
        push_moment_lines(text, signals, from, recorded, moments, t)?;
    }
    Ok(())
}
