//! The signals that are drawn.
ghost use Rattle.std.specs.Prelude.{◌≡◌, map, filter, IfOk};
ghost use Rattle.bs_bits.specs.Lines.{is_digits};
ghost use Rattle.bs_inspect_view.specs.Signals.{signal_in};
ghost use Rattle.bs_net_names.specs.Splits.{first_split};
ghost use Rattle.bs_inspect_view.specs.Drawn.{AreDrawn, asked_in, is_constant, is_counted, is_drawn, is_internal, is_nameless, is_numbered};

use crate::nets::net_signals;
use crate::request::ViewRequest;
use crate::scopes::leaf_of;
use crate::signal::Signal;
use bs_bits::NoMemory;
use bs_net::Netlist;
use bs_net_names::{first_split, plain};
use std::alloc::Global;

/// Whether all bytes are digits.
fn is_digits(text: &[u8]) -> bool
    ensures { result ≡ is_digits text.now }
{
    text.iter().all(|&byte| b'0' <= byte && byte <= b'9')
}

/// Whether a text is digits up to a `_` that ends it.
fn is_numbered(text: &[u8]) -> bool
    ensures { result ≡ is_numbered (first_split 95 text.now) }
{
    match first_split(b'_', text) {
        Some((digits, behind)) => behind.is_empty() && (!digits.is_empty() && is_digits(digits)),
        None => false,
    }
}

/// Whether a name is one such as `$abc$1`.
fn is_internal(name: &[u8]) -> bool
    ensures { result ≡ is_internal name.now }
{
    match name {
        [] => false,
        [first, ..] => *first == b'$',
    }
}

/// Whether a name is one such as `_012_`.
fn is_counted(name: &[u8]) -> bool
    ensures { result ≡ is_counted name.now }
{
    match name {
        [] => false,
        [first, rest @ ..] => *first == b'_' && is_numbered(rest),
    }
}

/// Whether a key is that of a constant.
fn is_constant(name: &[u8]) -> bool
    ensures { result ≡ is_constant name.now }
{
    name == b"1'b0".as_slice() || name == b"1'b1".as_slice()
}

/// Whether a key is that of a constant, or one that synthesis made.
pub fn is_nameless(name: &[u8]) -> bool
    ensures { result ≡ is_nameless name.now }
{
    let leaf = leaf_of(name);
    is_constant(name) || (is_internal(plain(name)) || (is_internal(leaf) || is_counted(leaf)))
}

/// Whether a signal with this name is drawn.
fn is_drawn(asked: &ViewRequest<'_>, name: &[u8]) -> bool
    ensures { result ≡ is_drawn (asked_in asked.now) name.now }
{
    asked.all || (!asked.only.is_empty() || !is_nameless(name))
}

/// Leaves the signals that are drawn.
fn keep_drawn(asked: &ViewRequest<'_>, signals: &mut Vec<Signal<'_>>)
    ensures { map signal_in signals.new.items ≡ filter (λ s. is_drawn (asked_in asked.now) s.base) (map signal_in signals.old.items) }
{
    signals.retain(|signal| is_drawn(asked, signal.base));
}

/// The signals of a netlist's nets that are drawn.
pub(crate) fn drawn_signals<'a>(
    alloc: Global,
    net: &'a Netlist,
    asked: &ViewRequest<'_>,
) -> Result<Vec<Signal<'a>>, NoMemory>
    ensures { IfOk result (λ signals. AreDrawn net.now.raw (asked_in asked.now) (map signal_in signals.items)) }
{
    let mut signals = net_signals(alloc, net, asked.only)?;
    keep_drawn(asked, &mut signals);
    Ok(signals)
}
