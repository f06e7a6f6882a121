//! Where a name stands in a text.
ghost use Rattle.std.specs.Prelude.{◌≡◌, ◌≤◌, length, slice_get, IfNone, IfSome};
ghost use Rattle.bs_verilog_scope.specs.Standing.{is_joined, IsFirstPlace, IsNamePlace, joins_before, NoneOf, stands_at};

use bs_lex::is_of_name;

/// Whether a byte of a name stands at a place.
fn is_joined(text: &[u8], at: usize) -> bool
    ensures { result ≡ is_joined (slice_get text.now at) }
{
    match text.get(at) {
        Some(byte) => is_of_name(*byte),
        None => false,
    }
}

/// Whether a byte of a name stands before a place.
fn joins_before(text: &[u8], at: usize) -> bool
    ensures { result ≡ joins_before text.now at }
{
    if at == 0 {
        false
    } else {
        is_joined(text, at - 1)
    }
}

/// Whether a name stands at a place of a text, with no byte of a name before it or behind it.
pub(crate) fn stands_at(text: &[u8], at: usize, name: &[u8]) -> bool
    requires { at ≤ length text.now }
    ensures { result ≡ stands_at text.now name.now at }
{
    let rest = &text[at..];
    let starts = rest.starts_with(name);
    let joined_before = joins_before(text, at);
    let joined_behind = is_joined(rest, name.len());
    starts && (!joined_before && !joined_behind)
}

/// The first place of a text at which a name stands, if it stands anywhere.
fn first_place(text: &[u8], name: &[u8]) -> Option<usize>
    ensures some { IfSome result (IsFirstPlace (stands_at text.now name.now) (length text.now)) }
    ensures none { IfNone result (NoneOf (stands_at text.now name.now) (length text.now)) }
{
    'places: for at in 0..text.len() {
        if stands_at(text, at, name) {
            return Some(at);
        }
    }
    None
}

/// The first place of a text at which a name stands; the text's front where it stands nowhere.
pub fn place_of_name(text: &[u8], name: &[u8]) -> usize
    ensures { IsNamePlace text.now name.now result }
{
    match first_place(text, name) {
        Some(at) => at,
        None => 0,
    }
}
