//! Bits as vectors: which bits make a vector, and the number that its bits are; and the waveform of a trace
//! in the form that viewers take, with vectors as vectors.
//!
//! Of vectors: `signal` (`signals`: which bits make a vector), `rtl` (their names as RTL writes them), `hex`
//! (`push_value`). Used above: `AreSignals` (`specs/Signals`): each wanted bit stands in exactly one signal, a
//! signal is a net by itself or consecutive bits of a vector, none could go on in the next, and they stand in
//! the order of `member_cmp`; `rtl_text` (`specs/Rtl`) and `value_text` (`specs/Values`).
//!
//! Of waveforms: `request` (what is asked), `nets` and `drawn` (the signals of the nets that are drawn),
//! `scopes` and `head` (the variables), `value` and `moment` (what changes), `recorded` (the variables
//! `run` and `cycle`), `view` (`drawing`), `save` (`save_file`: the same signals for gtkwave).
//! Used above: `IsDrawing` (`specs/View`): the text of the trace's wave and the nets' signals; `IsSaveFile` (`specs/Save`). A
//! line: `specs/View`, `specs/Recorded`; a scope: `specs/Scopes`; which nets: `specs/Drawn`. The nets' keys and signals:
//! `net_keys`, `net_signals`.
#![tactic(auto)]

mod drawn;
mod head;
mod hex;
mod moment;
mod nets;
mod recorded;
mod request;
mod rtl;
mod save;
mod scopes;
mod signal;
mod value;
mod view;

pub use drawn::is_nameless;
pub use hex::push_value;
pub use nets::{net_keys, net_signals};
pub use request::ViewRequest;
pub use rtl::push_rtl_name;
pub use save::save_file;
pub use signal::{Member, Signal, members, push_name, signals};
pub use view::drawing;
