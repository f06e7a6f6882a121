//! A text cut at a byte.
ghost use Rattle.std.specs.Prelude.{◌≡◌};
ghost use Rattle.bs_net_names.specs.Splits.{before, behind, first_split, halves_in, last_split};

/// What stands before the first such byte and behind it, if there is one.
#[tactic(auto, using(crate::proofs::SplitLemmas::first_more, crate::proofs::SplitLemmas::first_found, crate::proofs::SplitLemmas::first_none))]
pub fn first_split(byte: u8, text: &[u8]) -> Option<(&[u8], &[u8])>
    ensures { halves_in result ≡ first_split byte text.now }
{
    'text: for i in 0..text.len() {
        if text[i] == byte {
            return Some((&text[..i], &text[i + 1..]));
        }
    }
    None
}

/// What stands before the last such byte and behind it, if there is one.
#[tactic(auto, using(crate::proofs::SplitLemmas::last_more, crate::proofs::SplitLemmas::last_found))]
pub fn last_split(byte: u8, text: &[u8]) -> Option<(&[u8], &[u8])>
    ensures { halves_in result ≡ last_split byte text.now }
{
    let mut i = text.len();
    'text: while i > 0 {
        i -= 1;
        if text[i] == byte {
            return Some((&text[..i], &text[i + 1..]));
        }
    }
    None
}

/// What stands before the first such byte, or all.
pub fn before(byte: u8, text: &[u8]) -> &[u8]
    ensures { result.now ≡ before byte text.now }
{
    match first_split(byte, text) {
        Some((front, _)) => front,
        None => text,
    }
}

/// What stands behind the first such byte, or all.
pub fn behind(byte: u8, text: &[u8]) -> &[u8]
    ensures { result.now ≡ behind byte text.now }
{
    match first_split(byte, text) {
        Some((_, rest)) => rest,
        None => text,
    }
}
