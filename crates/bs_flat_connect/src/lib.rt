//! The connections of all instances of a design: of each module its nets, those of a term and its ports; each
//! term against its port; and the modules with their joined nets.
//!
//! Of all modules: `matching` (the connections of an instance, each with its port), `joining` (the run of
//! joined nets that a connection makes, or its place), `instances` (the ports of all modules, the instances
//! of one), `copies`, `making` (`connect`), `fault`. Used above: `connect` answers exactly
//! `connected_modules` of the modules that were read. To change what a connection may be open
//! `specs/Connecting` here and in bs_flat_meaning.
//!
//! Of one module: `nets` and `naming` (the keys of a module's nets, in order), `growing` (the nets that
//! connections add), `spans` (names whose nets stand side by side), `terms` (`term_nets`), `ports`
//! (`ports_of`), `wiring` (`wire`). Used above: `wire` gives the wiring of a module that was read
//! (`specs/Wiring`), `term_nets` the nets of a term side by side, `ports_of` its ports.
#![tactic(auto)]

mod copies;
mod fault;
mod growing;
mod instances;
mod joining;
mod making;
mod matching;
mod naming;
mod nets;
mod ports;
mod spans;
mod terms;
mod wiring;

pub use making::connect;
pub use nets::Keys;
pub use ports::{Port, Ports};
pub use terms::NetRange;
pub use wiring::{Wiring, wire};
