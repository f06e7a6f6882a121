//! What stands before a place of a netlist's text: the word in front of it, and the module that it lies in.
ghost use Rattle.std.specs.Prelude.{◌≡◌, ◌≤◌, ◌<◌, ◌-◌, ◌||◌, drop, length, reverse, slice_index, IfSome};
ghost use Rattle.std.specs.List.{prefix_len};
ghost use Rattle.std.specs.Str.{bytes_eq};
ghost use Rattle.bs_verilog_scope.specs.Before.{declares_from, declares_near, declares_to, ends_at, front_name, ink_end, inked, is_own, is_white, is_word, begins_line, is_blank, is_module, last_module, module_name};
ghost use Rattle.bs_lex.specs.Bytes.{is_of_name};

use crate::standing::stands_at;
use bs_lex::is_of_name;

// ---- words

/// Whether a word stands at a place of a text.
pub fn is_word(text: &[u8], at: usize, word: &[u8]) -> bool
    ensures { result ≡ is_word text.now at word.now }
{
    at < text.len() && stands_at(text, at, word)
}

/// Whether a byte is white space.
fn is_white(byte: u8) -> bool
    ensures { result ≡ is_white byte }
{
    byte == b' ' || (8 < byte && byte < 14)
}

/// The byte before a place.
fn byte_before(text: &[u8], at: usize) -> u8
    requires some { 0 < at }
    requires within { at ≤ length text.now }
    ensures { result ≡ slice_index text.now (at - 1) }
{
    text[at - 1]
}

/// Whether a byte is a blank.
fn is_blank(byte: u8) -> bool
    ensures { result ≡ is_blank byte }
{
    byte == b' ' || byte == b'\t'
}

/// How many bytes at the end of a text are blanks.
fn blank_len(text: &[u8]) -> usize
    ensures len { result ≡ prefix_len is_blank (reverse text.now) }
    ensures within { result ≤ length text.now }
{
    text.iter().rev().take_while(|b| is_blank(**b)).count()
}

/// Where the text before a place ends, without the blanks behind it.
fn ink_end(text: &[u8], at: usize) -> usize
    requires { at ≤ length text.now }
    ensures is { result ≡ ink_end text.now at }
    ensures within { result ≤ at }
{
    at - blank_len(&text[..at])
}

/// Whether a word ends at a place.
fn ends_at(text: &[u8], word: &[u8], end: usize) -> bool
    ensures { result ≡ ends_at text.now word.now end }
{
    word.len() <= end && is_word(text, end - word.len(), word)
}

/// Whether a word ends there with which RTL declares, and which a netlist takes for a name.
fn declares_to(text: &[u8], end: usize) -> bool
    ensures { result ≡ declares_to text.now end }
{
    let logic = ends_at(text, b"logic", end);
    let bit = ends_at(text, b"bit", end);
    let var = ends_at(text, b"var", end);
    let signed = ends_at(text, b"signed", end);
    let int = ends_at(text, b"int", end);
    (logic || (bit || var)) || (signed || int)
}

/// Whether one stands there that no netlist takes for a name.
fn declares_from(text: &[u8], at: usize) -> bool
    ensures { result ≡ declares_from text.now at }
{
    let reg = is_word(text, at, b"reg");
    let integer = is_word(text, at, b"integer");
    reg || integer
}

/// Whether a word of RTL stands at a place in a text or at its end, or in front of it.
fn declares_around(text: &[u8], at: usize) -> bool
    requires { at ≤ length text.now }
    ensures { result ≡ (declares_from text.now at || declares_to text.now (ink_end text.now at)) }
{
    let from = declares_from(text, at);
    let to = declares_to(text, ink_end(text, at));
    from || to
}

/// Whether a word of RTL stands at a place, or in front of it.
pub fn declares_near(text: &[u8], at: usize) -> bool
    ensures { result ≡ declares_near text.now at }
{
    at <= text.len() && declares_around(text, at)
}

// ---- the module that a place lies in

/// Whether a line, or the text, begins at a place.
fn begins_line(text: &[u8], at: usize) -> bool
    requires { at ≤ length text.now }
    ensures { result ≡ begins_line text.now at }
{
    if at > 0 {
        byte_before(text, at) == b'\n'
    } else {
        true
    }
}

/// Whether blanks alone stand on the line in front of a place.
fn is_first(text: &[u8], at: usize) -> bool
    requires { at ≤ length text.now }
    ensures { result ≡ begins_line text.now (ink_end text.now at) }
{
    let end = ink_end(text, at);
    begins_line(text, end)
}

/// Whether a module begins at a place.
fn is_module(text: &[u8], at: usize) -> bool
    requires { at ≤ length text.now }
    ensures { result ≡ is_module text.now at }
{
    stands_at(text, at, b"module") && is_first(text, at)
}

/// The last place before another at which a module begins.
#[tactic(auto, using(crate::proofs::BeforeLemmas::place_found, crate::proofs::BeforeLemmas::place_next, crate::proofs::BeforeLemmas::place_none))]
fn last_module(text: &[u8], below: usize) -> Option<usize>
    requires { below ≤ length text.now }
    ensures is { result ≡ last_module text.now below }
    ensures within { IfSome result (λ at. at < below) }
{
    let mut end = below;
    'places: while end > 0 {
        if is_module(text, end - 1) {
            return Some(end - 1);
        }
        end -= 1;
    }
    None
}

/// How many bytes at the front may stand in a name.
fn name_len(text: &[u8]) -> usize
    ensures len { result ≡ prefix_len is_of_name text.now }
    ensures within { result ≤ length text.now }
{
    text.iter().take_while(|b| is_of_name(**b)).count()
}

/// The name at the front of a text.
fn front_name(text: &[u8]) -> &[u8]
    ensures { result.now ≡ front_name text.now }
{
    &text[..name_len(text)]
}

/// How many bytes at the front are white space.
fn white_len(text: &[u8]) -> usize
    ensures len { result ≡ prefix_len is_white text.now }
    ensures within { result ≤ length text.now }
{
    text.iter().take_while(|b| is_white(**b)).count()
}

/// A text without the white space at its front.
fn inked(text: &[u8]) -> &[u8]
    ensures { result.now ≡ inked text.now }
{
    &text[white_len(text)..]
}

/// A text from a place on.
#[tactic(auto, using(crate::proofs::BeforeLemmas::nothing_behind))]
fn behind_place(text: &[u8], at: usize) -> &[u8]
    ensures { result.now ≡ drop at text.now }
{
    if at <= text.len() { &text[at..] } else { b"" }
}

/// The name behind `module` at a place.
fn module_name(text: &[u8], at: usize) -> &[u8]
    requires { at < length text.now }
    ensures { result.now ≡ module_name text.now at }
{
    front_name(inked(behind_place(text, at + 6)))
}

/// Whether two names are the same.
fn is_same(one: &[u8], other: &[u8]) -> bool
    ensures { result ≡ bytes_eq one.now other.now }
{
    one == other
}

/// Whether the module at a place has the name that stands at another.
fn is_named_at(text: &[u8], at: usize, place: usize) -> bool
    requires { place < length text.now }
    ensures { result ≡ bytes_eq (module_name text.now place) (front_name (drop at text.now)) }
{
    is_same(module_name(text, place), front_name(behind_place(text, at)))
}

/// The same of the last module before the place, which lies in the text.
#[tactic(auto, using(crate::proofs::BeforeLemmas::own_module, crate::proofs::BeforeLemmas::no_module))]
fn is_in_own(text: &[u8], at: usize) -> bool
    requires { at < length text.now }
    ensures { result ≡ is_own text.now at }
{
    match last_module(text, at) {
        Some(place) => is_named_at(text, at, place),
        None => false,
    }
}

/// Whether the name at a place is that of the module in which it stands.
pub fn is_own(text: &[u8], at: usize) -> bool
    ensures { result ≡ is_own text.now at }
{
    at < text.len() && is_in_own(text, at)
}
