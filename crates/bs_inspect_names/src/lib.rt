//! The names by which a netlist's bits are known: the flip-flops and data inputs that stand behind a name of RTL, and what a
//! simulation calls them.
//!
//! Modules: `called` (the flip-flops whose values nets of a name show), `cone` (those that a gate's net is computed from); `vector` (a
//! word that names a vector), `entry` (a line of a file of names), `naming` (the name of each key), `tagged` (a line is compared with
//! the keys and the lines of its number alone), `fault`. Used above: `TellsKeys`
//! (`specs/Called`), over `IsCone` (`specs/Cone`): the least set of nets with those of a name and with what their gates read; and
//! `map_in` (`specs/Mapping`), the names in a simulation in the order of the keys, or the first refused line.
#![tactic(auto)]

mod called;
mod cone;
mod entry;
mod fault;
mod naming;
mod tagged;
mod vector;

pub use called::{first_unnamed, keys_text};
pub use fault::MapFault;
pub use naming::{read_names, slices_of};
