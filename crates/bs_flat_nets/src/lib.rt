//! The flat nets of a design of modules in code: how many there are, their order, and the number of the flat net that stands for
//! each net on each path.
//!
//! Modules: `blocks` (a design in code: modules whose joined nets are runs of bits), `counts`,
//! `joined`, `sums` (depths, parts and nets counted module by module along an order, before any
//! path is made), `constants`, `instance_paths` (the paths), the flat nets in their order and a search for
//! the number of one, with the uppermost net by a search among the runs. Used above: `is_deep`,
//! `has_many_parts`, `has_many_nets`; `number_nets` lists exactly `flat_nets` of the design, and
//! `flat_net` tells exactly `flat_number`. A further count is a further rule with `IsLocal` of it.
#![tactic(auto)]

mod blocks;
mod climbing;
mod constants;
mod counts;
mod free;
mod instance_paths;
mod joined;
mod law;
mod lookup;
mod numbers;
mod rows;
mod sums;
mod tally;

pub use blocks::{Child, FlatModule, JoinedNets};
pub use climbing::NetOnPath;
pub use constants::{Bit, all_bits, block_bits};
pub use counts::{has_many_parts, is_deep};
pub use instance_paths::path_nodes;
pub use joined::{Counted, outer_of, weight};
pub use law::numbered_orders_are_children_first;
pub use lookup::flat_net;
pub use numbers::{Numbering, number_nets};
pub use sums::has_many_nets;
