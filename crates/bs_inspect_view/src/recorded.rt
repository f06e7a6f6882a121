//! The recorded moments of a trace: the variables `run` and `cycle`.
ghost use Rattle.std.specs.Prelude.{◌≡◌, ◌<◌, ◌≤◌, ◌==◌, ◌++◌, OnOk};
ghost use Rattle.std.specs.Int.{bit_at};
ghost use Rattle.bs_inspect_view.specs.Recorded.{bit_piece, cycle_of, is_same, number_bits, number_line, number_piece, number_text, opening_lines, recorded_at, recorded_lines, recorded_piece, run_of};

use bs_bits::{NoMemory, end_line, push_piece};

/// Appends the scope of both, and the line that opens that of the trace.
#[tactic(auto, unfolding(crate::specs::Recorded::opening_lines))]
pub(crate) fn push_opening_lines(text: &mut Vec<u8>) -> Result<(), NoMemory>
    ensures { OnOk result (text.new.items ≡ text.old.items ++ opening_lines) }
{
    push_piece(
        text,
        b"$scope module recorded $end\n$var integer 32 !! run [31:0] $end\n$var integer 32 \"! cycle [31:0] $end\n$upscope $end\n$scope module trace $end\n",
    )
}

/// Whether a number has the bit at a place, from the least one on.
fn has_bit(number: u64, place: usize) -> bool
    requires { place < 64 }
    ensures { result ≡ (bit_at number place == 1) }
{
    (number >> place) & 1 == 1
}

/// Appends a bit.
fn push_bit(text: &mut Vec<u8>, bit: bool) -> Result<(), NoMemory>
    ensures { OnOk result (text.new.items ≡ text.old.items ++ bit_piece bit) }
{
    if bit {
        push_piece(text, b"1")
    } else {
        push_piece(text, b"0")
    }
}

/// Appends the lowest bits of a number, so many, the greatest first.
fn push_number_bits(text: &mut Vec<u8>, number: u64, count: usize) -> Result<(), NoMemory>
    requires { count ≤ 64 }
    ensures { OnOk result (text.new.items ≡ text.old.items ++ number_bits number count) }
{
    'bits: for k in 0..count {
        push_bit(text, has_bit(number, count - 1 - k))?;
    }
    Ok(())
}

/// Appends a number as 32 bits, and `x` where there is none.
fn push_number_text(text: &mut Vec<u8>, number: Option<u32>) -> Result<(), NoMemory>
    ensures { OnOk result (text.new.items ≡ text.old.items ++ number_text number) }
{
    match number {
        Some(number) => push_number_bits(text, u64::from(number), 32),
        None => push_piece(text, b"x"),
    }
}

/// Appends the value of the variable with an id.
fn push_number_line(text: &mut Vec<u8>, id: &[u8], number: Option<u32>) -> Result<(), NoMemory>
    ensures { OnOk result (text.new.items ≡ text.old.items ++ number_line id.now number) }
{
    push_piece(text, b"b")?;
    push_number_text(text, number)?;
    push_piece(text, b" ")?;
    push_piece(text, id)?;
    end_line(text)
}

/// Whether two numbers are the same, or both are none.
fn is_same(before: Option<u32>, now: Option<u32>) -> bool
    ensures { result ≡ is_same before now }
{
    match before {
        Some(before) => match now {
            Some(now) => before == now,
            None => false,
        },
        None => match now {
            Some(_) => false,
            None => true,
        },
    }
}

/// Appends the value of the variable with an id, where it is another one than before, or the first.
fn push_number_piece(
    text: &mut Vec<u8>,
    first: bool,
    id: &[u8],
    before: Option<u32>,
    now: Option<u32>,
) -> Result<(), NoMemory>
    ensures { OnOk result (text.new.items ≡ text.old.items ++ number_piece first id.now before now) }
{
    let same = is_same(before, now);
    if !first && same {
        return Ok(());
    }
    push_number_line(text, id, now)
}

/// The run of a state, where it was recorded.
fn run_of(moment: Option<(u32, u32)>) -> Option<u32>
    ensures { result ≡ run_of moment }
{
    match moment {
        Some((run, _)) => Some(run),
        None => None,
    }
}

/// The cycle of a state, where it was recorded.
fn cycle_of(moment: Option<(u32, u32)>) -> Option<u32>
    ensures { result ≡ cycle_of moment }
{
    match moment {
        Some((_, cycle)) => Some(cycle),
        None => None,
    }
}

/// The recorded moment of a state, and none past the end.
fn recorded_at(recorded: &[Option<(u32, u32)>], t: usize) -> Option<(u32, u32)>
    ensures { result ≡ recorded_at recorded.now t }
{
    if t < recorded.len() {
        recorded[t]
    } else {
        None
    }
}

/// Appends what of both has changed.
fn push_recorded_piece(
    text: &mut Vec<u8>,
    first: bool,
    before: Option<(u32, u32)>,
    now: Option<(u32, u32)>,
) -> Result<(), NoMemory>
    ensures { OnOk result (text.new.items ≡ text.old.items ++ recorded_piece first before now) }
{
    push_number_piece(text, first, b"!!", run_of(before), run_of(now))?;
    push_number_piece(text, first, b"\"!", cycle_of(before), cycle_of(now))
}

/// Appends what of both has changed at a moment.
pub(crate) fn push_recorded(
    text: &mut Vec<u8>,
    recorded: &[Option<(u32, u32)>],
    t: usize,
) -> Result<(), NoMemory>
    ensures { OnOk result (text.new.items ≡ text.old.items ++ recorded_lines recorded.now t) }
{
    let before = recorded_at(recorded, t.saturating_sub(1));
    push_recorded_piece(text, t == 0, before, recorded_at(recorded, t))
}
