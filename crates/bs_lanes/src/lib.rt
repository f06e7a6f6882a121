//! A simulator of up to 256 runs at once, on planes: one bit of many runs in one, two or four words.
//!
//! Modules: `lanes` (`Lanes`), `levels` (gates by level, levels going round the kinds), `places` (where each
//! net's plane lies), `layout`, `program` (the order cut into stretches of one kind), `pairs` and `gates` (a
//! stretch evaluated), `loads` (what flip-flops load), `nets`, `widths`. Used above: after `Lanes::step` each
//! lane's state is `next` of its own state and input (`AreStepped`), and no memory is taken. How a gate is
//! evaluated: `pairs` and `gates`. The order: `levels`, which promises `IsOrder`. Where planes lie: `places`,
//! which promises `IsPlacing`.
//!
//! Of planes: `plane` (one plane read, written, complemented, widened), `planes` (`Plane`, `Planes`: planes
//! one behind another in flat words). Used above: a run's bits in some planes are `lane` (`specs/Planes`),
//! lanes counted from 0; `IsPlane` says what a plane has in each lane.
//!
//! Why: planes lie in the order of evaluation, because in the order of nets a step took 1.3 times as long. Levels go
//! round the kinds of gates, so that gates of one kind stand in a row.
#![tactic(auto)]

mod gates;
mod lanes;
mod layout;
mod levels;
mod loads;
mod nets;
mod pairs;
mod places;
mod plane;
mod planes;
mod program;
mod widths;

pub use lanes::{Lanes, lane_bits};
pub use plane::{inverse, lane_bit};
pub use planes::{Plane, Planes, put_bit};
