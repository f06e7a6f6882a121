//! Where a line of a text begins.
ghost use Rattle.std.specs.Prelude.{◌≡◌, ◌<◌, ◌≤◌, ◌+◌, ◌-◌, ◌==◌, ◌⊎◌, ℕ, length, slice_index, take, count_by, true, false};
ghost use Rattle.bs_net_names.specs.Spots.{IsLineStart};

/// The place at which the line with a number begins, from 1; the text's length where there is no such line.
pub fn line_start(text: &[u8], number: u64) -> usize
    requires { 0 < number }
    ensures { IsLineStart text.now number result }
{
    let mut left = number - 1;
    'bytes: for (i, byte) in text.iter().enumerate() {
        if left == 0 {
            return i;
        }
        if *byte == b'\n' {
            left -= 1;
        }
    }
    text.len()
}
