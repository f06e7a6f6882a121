//! What leaves the chip: signatures, scan chains and dumps; what a state shows of its flip-flops where not
//! all were scanned; and the moments of recorded runs.
//!
//! Modules: `choice` and `choice_text` (a signature's items and its file), with `words`, `flops`
//! and `flop_keys` (flip-flops by name), `register` (`SigReg`), `chain` (a ring over the captured bits), `dump` and
//! `dump_text`, `moment`, `listed`, `shown` (`HasState`). Used above: `Recording`, `Crash` and `DumpFits`
//! (`specs/Crash`), `signature`, `stored_at` and `first_moment`. What a register keeps: `depth_of` in
//! `specs/Choice`, `agrees` and `predecessors` in `specs/Signature`, `specs/Register`, `specs/DumpText`. The
//! signature file: `specs/ChoiceText`.
//!
//! Of bits of which some are not known: `seen` (`Seen`: bits, and the places that are free), `seen_text` (its
//! text, `-` for a bit that is not known). Used above: `Shows`, that a state has the known bits, and `kept`,
//! the items at the known places, in `specs/Seen`; the text is in `specs/SeenText`. Where everything is known
//! both are those of bits.
#![tactic(auto)]

mod chain;
mod choice;
mod choice_text;
mod dump;
mod dump_text;
mod fault;
mod flop_keys;
mod flops;
mod law;
mod listed;
mod moment;
mod register;
mod seen;
mod seen_law;
mod seen_text;
mod shown;
mod words;

pub use chain::Chain;
pub use choice::{Choice, MAX_ITEM_FLOPS, MAX_ITEMS, MAX_SIGNATURE_BYTES};
pub use dump::Dump;
pub use fault::{ChoiceFault, DumpFault};
pub use flop_keys::flop_parts;
pub use flops::FlopNames;
pub use law::{
    dump_texts_are_exact, dumps_read_back, first_moment_is_the_least, full_shifts_unload,
};
pub use listed::is_listed;
pub use moment::Moment;
pub use register::SigReg;
pub use seen::Seen;
pub use seen_law::seen_texts_read_back;
pub use seen_text::push_seen_text;
pub use shown::HasState;
