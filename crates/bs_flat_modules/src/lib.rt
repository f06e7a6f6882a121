//! The modules of a netlist text of several: where each stands, what its own text says, and the instances
//! that it writes; and that no text leads to a count for which a reader of designs answers out of memory.
//!
//! Modules: `dealing` (where the modules stand among the lexemes, and what stands outside), `names` (none
//! twice), `items` (instance statements, and what an own text keeps), `copying` and `owns` (own texts, and
//! what they say), `alone` (what stands outside need not be read with each), `reading` (`read_modules`). Used
//! above: `read_modules` answers exactly what `specs/Reading` of bs_flat_meaning says. That what it reads is
//! whole is a law of bs_flat_meaning.
//!
//! Of counts `law` has laws; nothing stands on them. `specs/Texts` (numbers and connections that are read
//! from the lexemes of a text), `specs/Modules` (what a module has that was read), `specs/Designs` (paths and
//! nets of a design within the limits). Readers number by fewer bytes than a count may have, and what is past
//! these is out of memory to them: by these laws none comes there with a text of at most `MAX_BYTES`.
#![tactic(auto)]

mod alone;
mod copying;
mod dealing;
mod ids;
mod items;
mod law;
mod names;
mod owns;
mod pieces;
mod reading;
mod sorts;

pub use dealing::{Dealt, ModuleSpan, deal};
pub use ids::module_ids;
pub use law::{
    connections_take_three_bytes, designs_have_few_nets, designs_have_few_paths,
    lexemes_are_copied, modules_are_counted, own_texts_are_of_the_text, parts_are_counted,
    reading_is_short, texts_have_few_lexemes,
};
pub use owns::{Modules, Own};
pub use reading::read_modules;
