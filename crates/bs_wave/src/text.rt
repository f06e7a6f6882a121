//! The text of a wave, written by appends.
ghost use Rattle.std.specs.Prelude.{◌≡◌, ◌<◌, [], ◌++◌, length, slice_get, OnOk, OnErr};
ghost use Rattle.std.specs.List.{flat_map};
ghost use Rattle.bs_bits.specs.Lines.{line};
ghost use Rattle.bs_wave.specs.Appending.{Begins, before_at, change_line, is_new};
ghost use Rattle.bs_wave.specs.WaveText.{change_lines, head_lines, id_of, moment_lines, net_line, net_lines, same_value, time_line, value_code};
ghost use Rattle.bs_wave.specs.WaveText.{value_line, wave_text};

use crate::value::Value;
use crate::wave::Wave;
use bs_bits::{List, NoMemory, end_line, push_line, push_number, push_piece};

/// The character of a value.
pub fn value_code(value: Value) -> u8
    ensures { result ≡ value_code value }
{
    match value {
        Value::Zero => b'0',
        Value::One => b'1',
        Value::Unknown => b'x',
    }
}

/// Whether two values are the same.
pub fn is_same(a: Value, b: Value) -> bool
    ensures { result ≡ same_value a b }
{
    match a {
        Value::Zero => matches!(b, Value::Zero),
        Value::One => matches!(b, Value::One),
        Value::Unknown => matches!(b, Value::Unknown),
    }
}

/// Appends the id of a net: its number in base 94, the lowest digit first.
#[tactic(auto, using(crate::proofs::IdLemmas::last_digit, crate::proofs::WritingLemmas::begins_longer, crate::proofs::WritingLemmas::begins_same))]
fn push_id(net: usize, into: &mut Vec<u8>) -> Result<(), NoMemory>
    ensures ok { OnOk result (into.new.items ≡ into.old.items ++ id_of net) }
    ensures err { OnErr result (Begins into.old.items into.new.items) }
{
    let mut left = net;
    'digits: while left >= 94 {
        into.push(b'!' + (left % 94) as u8)?;
        left /= 94;
    }
    into.push(b'!' + left as u8)?;
    Ok(())
}

/// Appends the line of a net.
#[tactic(auto, using(crate::proofs::WritingLemmas::begins_after, crate::proofs::WritingLemmas::whole_net))]
fn push_net(net: usize, key: &[u8], into: &mut Vec<u8>) -> Result<(), NoMemory>
    ensures ok { OnOk result (into.new.items ≡ into.old.items ++ line (net_line net key.now)) }
    ensures err { OnErr result (Begins into.old.items into.new.items) }
{
    push_piece(into, b"$var wire 1 ")?;
    push_id(net, into)?;
    push_piece(into, b" ")?;
    push_piece(into, key)?;
    push_line(into, b" $end")
}

/// Appends the lines of the nets.
#[tactic(auto, using(crate::proofs::WritingLemmas::begins_after, crate::proofs::WritingLemmas::one_more_net, crate::proofs::WritingLemmas::all_nets))]
fn push_nets(keys: &List<List<u8>>, into: &mut Vec<u8>) -> Result<(), NoMemory>
    ensures ok { OnOk result (into.new.items ≡ into.old.items ++ flat_map line (net_lines 0 keys.now)) }
    ensures err { OnErr result (Begins into.old.items into.new.items) }
{
    'nets: for net in 0..keys.len() {
        push_net(net, keys.get(net).slice(), into)?;
    }
    Ok(())
}

/// Appends the lines before the first moment.
#[tactic(auto, using(crate::proofs::WritingLemmas::begins_after, crate::proofs::WritingLemmas::whole_head))]
fn push_head(keys: &List<List<u8>>, into: &mut Vec<u8>) -> Result<(), NoMemory>
    ensures ok { OnOk result (into.new.items ≡ into.old.items ++ flat_map line (head_lines keys.now)) }
    ensures err { OnErr result (Begins into.old.items into.new.items) }
{
    push_line(into, b"$timescale 1ns $end")?;
    push_line(into, b"$scope module trace $end")?;
    push_nets(keys, into)?;
    push_line(into, b"$upscope $end")?;
    push_line(into, b"$enddefinitions $end")
}

/// Appends the line of a moment.
#[tactic(auto, using(crate::proofs::WritingLemmas::begins_after))]
fn push_time(moment: usize, into: &mut Vec<u8>) -> Result<(), NoMemory>
    ensures ok { OnOk result (into.new.items ≡ into.old.items ++ line (time_line moment)) }
    ensures err { OnErr result (Begins into.old.items into.new.items) }
{
    push_piece(into, b"#")?;
    push_number(into, moment as u64)?;
    end_line(into)
}

/// Appends the line of a net's value.
#[tactic(auto, using(crate::proofs::WritingLemmas::begins_after))]
fn push_value(net: usize, value: Value, into: &mut Vec<u8>) -> Result<(), NoMemory>
    ensures ok { OnOk result (into.new.items ≡ into.old.items ++ line (value_line net value)) }
    ensures err { OnErr result (Begins into.old.items into.new.items) }
{
    into.push(value_code(value))?;
    push_id(net, into)?;
    end_line(into)
}

/// Whether a net's value is none that it had the moment before.
fn is_new(before: &[Value], net: usize, value: Value) -> bool
    ensures { result ≡ is_new (slice_get before.now net) value }
{
    if net >= before.len() {
        return true;
    }
    !is_same(before[net], value)
}

/// Appends the line of a net's value, unless it had it the moment before.
#[tactic(auto, using(crate::proofs::WritingLemmas::new_value, crate::proofs::WritingLemmas::old_value, crate::proofs::WritingLemmas::begins_same))]
fn push_change(
    before: &[Value],
    net: usize,
    value: Value,
    into: &mut Vec<u8>,
) -> Result<(), NoMemory>
    ensures ok { OnOk result (into.new.items ≡ into.old.items ++ flat_map line (change_line (slice_get before.now net) net value)) }
    ensures err { OnErr result (Begins into.old.items into.new.items) }
{
    if is_new(before, net, value) {
        push_value(net, value, into)?;
    }
    Ok(())
}

/// Appends the lines of the values that differ from those of the moment before.
#[tactic(auto, using(crate::proofs::WritingLemmas::begins_after, crate::proofs::WritingLemmas::one_more_change, crate::proofs::WritingLemmas::all_changes))]
fn push_changes(before: &[Value], values: &[Value], into: &mut Vec<u8>) -> Result<(), NoMemory>
    ensures ok { OnOk result (into.new.items ≡ into.old.items ++ flat_map line (change_lines 0 before.now values.now)) }
    ensures err { OnErr result (Begins into.old.items into.new.items) }
{
    'nets: for net in 0..values.len() {
        push_change(before, net, values[net], into)?;
    }
    Ok(())
}

/// The values of the moment before, which the first has none of.
#[tactic(auto, using(crate::proofs::WritingLemmas::before_is))]
fn values_before(moments: &List<List<Value>>, moment: usize) -> &[Value]
    requires { moment < length moments.now }
    ensures { result.now ≡ before_at [] moments.now moment }
{
    if moment == 0 {
        return &[];
    }
    moments.get(moment - 1).slice()
}

/// Appends the lines of a moment.
#[tactic(auto, using(crate::proofs::WritingLemmas::begins_after))]
fn push_moment(
    moment: usize,
    before: &[Value],
    values: &[Value],
    into: &mut Vec<u8>,
) -> Result<(), NoMemory>
    ensures ok { OnOk result (into.new.items ≡ into.old.items ++ (line (time_line moment) ++ flat_map line (change_lines 0 before.now values.now))) }
    ensures err { OnErr result (Begins into.old.items into.new.items) }
{
    push_time(moment, into)?;
    push_changes(before, values, into)
}

/// Appends the lines of the moments.
#[tactic(auto, using(crate::proofs::WritingLemmas::begins_after, crate::proofs::WritingLemmas::one_more_moment, crate::proofs::WritingLemmas::all_moments))]
fn push_moments(moments: &List<List<Value>>, into: &mut Vec<u8>) -> Result<(), NoMemory>
    ensures ok { OnOk result (into.new.items ≡ into.old.items ++ flat_map line (moment_lines 0 [] moments.now)) }
    ensures err { OnErr result (Begins into.old.items into.new.items) }
{
    'moments: for moment in 0..moments.len() {
        push_moment(
            moment,
            values_before(moments, moment),
            moments.get(moment).slice(),
            into,
        )?;
    }
    Ok(())
}

/// Appends the lines of a wave.
#[tactic(auto, using(crate::proofs::WritingLemmas::begins_after, crate::proofs::WritingLemmas::whole_wave))]
fn push_wave(wave: &Wave, into: &mut Vec<u8>) -> Result<(), NoMemory>
    ensures ok { OnOk result (into.new.items ≡ into.old.items ++ wave_text wave.now) }
    ensures err { OnErr result (Begins into.old.items into.new.items) }
{
    push_head(&wave.keys, into)?;
    push_moments(&wave.moments, into)
}

impl Wave {
    /// Appends the one text of the wave (docs/FORMATS.md, "Waveform"). The text is as before where memory runs out.
    pub fn text(&self, into: &mut Vec<u8>) -> Result<(), NoMemory>
        ensures ok { OnOk result (into.new.items ≡ into.old.items ++ wave_text self.now) }
        ensures err { OnErr result (into.new.items ≡ into.old.items) }
    {
        let mark = into.len();
        match push_wave(self, into) {
            Ok(()) => Ok(()),
            Err(refused) => {
                into.truncate(mark);
                Err(refused)
            }
        }
    }
}
