//! What a hierarchical design means, that its flat parts mean the same, and modules by what they instance: a
//! ring of them, or an order, and those that none instances; with the refusals of a ring and of several tops.
//!
//! Modules: `specs/Design` and `specs/Meaning` (what a design is, and when a valuation fits it), `specs/Flat`
//! (its flat parts), `specs/Pieces`, `specs/Instancing`, `specs/Connecting` (modules, instances, joins),
//! `specs/Reading` (the refusals in their order). Two more laws: each flat net has a name, and each module
//! that is read is whole. In code of these only `paths`, `statements`, `fault`, `limits` and `law`. Used
//! above: `flat_parts_keep_meaning`: where the flat parts pass the check, exactly one valuation fits the
//! design for each state and input, and its next state is the flat netlist's.
//!
//! Of the order: `children_first` (a gate stands for each module and reads those that it instances: an order
//! of gates is one of modules, a loop, turned round, a ring), `marks` (`tops`), and of modules that were read
//! their instances by number and the refusals `Recursion` and `Tops` (`expect_one_top`). Used above:
//! `expect_one_top`: a ring that was told is one, where none is told there is none, and the order has each
//! module after those that it instances (`specs/Ring`, `specs/Marks`).
#![tactic(auto)]

mod children_first;
mod fault;
mod law;
mod limits;
mod marks;
mod numbers;
mod paths;
mod places;
mod ranks;
mod refusals;
mod ring_law;
mod statements;

pub use fault::FlatFault;
pub use law::{
    flat_nets_are_named, flat_numbers_are_ranks, flat_parts_keep_executions,
    flat_parts_keep_meaning, modules_count_the_design, modules_read_are_whole,
    read_designs_are_whole, rings_are_found,
};
pub use limits::{MAX_DEPTH, MAX_KEY_BYTES, MAX_OWN_NETS, MAX_PARTS, MAX_PATHS, MAX_TERMINALS};
pub use numbers::module_numbers;
pub use paths::{Instanced, Node, add_below, all_paths};
pub use ranks::{Hierarchy, Ranked, rank_modules};
pub use refusals::expect_one_top;
pub use ring_law::rings_have_no_order;
pub use statements::{Written, instancing};
