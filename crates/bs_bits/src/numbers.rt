//! Numbers in a text: decimal digits without a sign and without a leading zero, other than `0` itself.
ghost use Rattle.std.specs.Prelude.{◌≡◌, ◌≢◌, ◌<◌, ◌^◌, ℕ, decimal, true, MatchOption};
ghost use Rattle.bs_bits.specs.Lines.{digits_in, is_canonical, is_digits, number_in};

/// Whether all bytes are digits.
fn is_digits(text: &[u8]) -> bool
    ensures { result ≡ is_digits text.now }
{
    text.iter().all(|&byte| b'0' <= byte && byte <= b'9')
}

/// Whether a text is a number of any size in its one form.
pub fn is_canonical(text: &[u8]) -> bool
    ensures { result ≡ is_canonical text.now }
{
    let digits = is_digits(text);
    match text {
        [] => false,
        [first, rest @ ..] => digits && (rest.is_empty() || *first != b'0'),
    }
}

/// The number of digits, unless it is 2^64 or more.
fn digits_value(digits: &[u8]) -> Option<u64>
    requires { is_digits digits.now ≡ true }
    ensures { result ≡ digits_in digits.now }
{
    let mut number = 0u64;
    for digit in digits {
        number = number
            .checked_mul(10)?
            .checked_add(u64::from(*digit - b'0'))?;
    }
    Some(number)
}

/// The number below 2^64 whose one form this text is, if there is one.
pub fn read_number(text: &[u8]) -> Option<u64>
    ensures value { result ≡ number_in text.now }
    ensures inverse { MatchOption result ((n : ℕ) → n < 2 ^ 64 → decimal n ≢ text.now) (λ n. decimal n ≡ text.now) }
{
    if is_canonical(text) {
        digits_value(text)
    } else {
        None
    }
}
