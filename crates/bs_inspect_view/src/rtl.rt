//! The name of a signal as RTL writes it.
ghost use Rattle.std.specs.Prelude.{◌≡◌, ◌++◌, OnOk};
ghost use Rattle.bs_inspect_view.specs.Rtl.{rtl_text};
ghost use Rattle.bs_inspect_view.specs.Signals.{signal_in};

use crate::signal::Signal;
use bs_bits::{NoMemory, push_piece};
use bs_net_names::{plain, push_range};

/// Appends the name of a signal as RTL writes it: without the `\` of an escaped name, and with the numbers of its bits behind it.
pub fn push_rtl_name(text: &mut Vec<u8>, signal: &Signal<'_>) -> Result<(), NoMemory>
    ensures { OnOk result (text.new.items ≡ text.old.items ++ rtl_text (signal_in signal.now)) }
{
    push_piece(text, plain(signal.base))?;
    match signal.high {
        Some(high) => push_range(text, high, signal.places.len()),
        None => Ok(()),
    }
}
