//! The classes of bytes.
ghost use Rattle.std.specs.Prelude.{◌≡◌, ◌≤◌, length, slice_index};
ghost use Rattle.std.specs.List.{prefix_len};
ghost use Rattle.bs_lex.specs.Bytes as spec;

/// The byte at a place, or 0 past the end.
pub fn byte_at(bytes: &[u8], index: usize) -> u8
    ensures { result ≡ slice_index bytes.now index }
{
    bytes.get(index).copied().unwrap_or(0)
}

/// White space: the bytes 9, 10, 12, 13 and 32.
pub fn is_space(b: u8) -> bool
    ensures { result ≡ spec.is_space b }
{
    b == 9 || b == 10 || b == 12 || b == 13 || b == 32
}

/// A letter or `_`.
pub fn begins_name(b: u8) -> bool
    ensures { result ≡ spec.begins_name b }
{
    b.is_ascii_alphabetic() || b == b'_'
}

/// A letter, a digit, `_` or `$`.
pub fn is_of_name(b: u8) -> bool
    ensures { result ≡ spec.is_of_name b }
{
    b.is_ascii_alphanumeric() || b == b'_' || b == b'$'
}

/// A byte 33 to 126.
pub fn is_graphic(b: u8) -> bool
    ensures { result ≡ spec.is_graphic b }
{
    b >= 33 && b <= 126
}

/// A byte that is a token alone.
pub fn is_symbol(b: u8) -> bool
    ensures { result ≡ spec.is_symbol b }
{
    matches!(
        b,
        b'(' | b')'
            | b'['
            | b']'
            | b'{'
            | b'}'
            | b','
            | b';'
            | b':'
            | b'.'
            | b'='
            | b'#'
            | b'*'
            | b'/'
            | b'+'
            | b'-'
            | b'&'
            | b'|'
            | b'^'
            | b'~'
            | b'!'
            | b'<'
            | b'>'
            | b'?'
            | b'@'
            | b'%'
            | b'\''
    )
}

/// A letter of a base, in either case.
pub(crate) fn is_base(b: u8) -> bool
    ensures { result ≡ spec.is_base b }
{
    matches!(b, b'b' | b'o' | b'd' | b'h' | b'B' | b'O' | b'D' | b'H')
}

/// A byte that may stand after a base.
fn is_value(b: u8) -> bool
    ensures { result ≡ spec.is_value b }
{
    b.is_ascii_hexdigit() || matches!(b, b'x' | b'X' | b'z' | b'Z' | b'?' | b'_')
}

/// How many bytes at the front may stand in a name.
pub fn name_len(bytes: &[u8]) -> usize
    ensures len { result ≡ prefix_len spec.is_of_name bytes.now }
    ensures within { result ≤ length bytes.now }
{
    bytes.iter().take_while(|b| is_of_name(**b)).count()
}

/// How many bytes at the front are printable ASCII and no space.
pub fn graphic_len(bytes: &[u8]) -> usize
    ensures len { result ≡ prefix_len spec.is_graphic bytes.now }
    ensures within { result ≤ length bytes.now }
{
    bytes.iter().take_while(|b| is_graphic(**b)).count()
}

/// How many bytes at the front are digits.
pub fn digit_len(bytes: &[u8]) -> usize
    ensures len { result ≡ prefix_len spec.is_digit bytes.now }
    ensures within { result ≤ length bytes.now }
{
    bytes.iter().take_while(|b| b.is_ascii_digit()).count()
}

/// How many bytes at the front are digits and `_`.
pub fn decimal_len(bytes: &[u8]) -> usize
    ensures len { result ≡ prefix_len spec.is_decimal bytes.now }
    ensures within { result ≤ length bytes.now }
{
    bytes
        .iter()
        .take_while(|b| b.is_ascii_digit() || **b == b'_')
        .count()
}

/// How many bytes at the front may stand after a base.
pub fn value_len(bytes: &[u8]) -> usize
    ensures len { result ≡ prefix_len spec.is_value bytes.now }
    ensures within { result ≤ length bytes.now }
{
    bytes.iter().take_while(|b| is_value(**b)).count()
}

/// How many bytes stand before the line feed or the end.
pub fn line_len(bytes: &[u8]) -> usize
    ensures len { result ≡ prefix_len spec.is_of_line bytes.now }
    ensures within { result ≤ length bytes.now }
{
    bytes.iter().take_while(|b| **b != b'\n').count()
}
