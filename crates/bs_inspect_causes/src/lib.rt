//! Accounts of facts of a trace: what forces them, what forces that in turn, which of them step a vector on
//! as one, and since when a net has had its bit.
//!
//! Modules: `drivers` (which nets flip-flops and data inputs drive), `basis` (what accounts are made by), `facts`, `block_account` (the account of a
//! block), `sourced` (the block by all flip-flops and data inputs of a cycle), `telling` (the account of a
//! unit), `units` (facts of one vector and cycle), `layer`, `ledger` and `further` (what is told already, and
//! asked further), `accounts` (`accounts_of`). Used above: `Explain` (`specs/Accounts`). By which facts a
//! unit is told is chosen below (bs_inspect_holds), and `is_block` (bs_net_facts) decides; where it does not
//! know, `sources_force` does.
//!
//! What an account is: `account` (`Account`: a block with its facts by kind), `chain` and `order` (accounts
//! that step a vector on as one, and their order), `since` (since when a net has had its bit). Used above:
//! `chains_of` (`specs/Chains`) and `AreAges` (`specs/Since`), by which bs_inspect_why tells accounts.
#![tactic(auto)]

mod account;
mod accounts;
mod basis;
mod block_account;
mod chain;
mod drivers;
mod facts;
mod further;
mod layer;
mod ledger;
mod order;
mod since;
mod sourced;
mod telling;
mod units;

pub use account::Account;
pub use accounts::accounts_of;
pub use chain::{AccountChain, ChainPlace, chains_of};
pub use facts::input_facts;
pub use order::ordered_chains;
pub use since::{ages, known_bit};
