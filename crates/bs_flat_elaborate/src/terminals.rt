//! How many inputs of gates, constants and ports of the top a design has together.
ghost use Rattle.std.specs.Prelude.{◌≡◌, ◌<◌, ◌+◌, nat_lt, length, map, All, MatchOption};
ghost use Rattle.std.specs.List.{sum_by};
ghost use Rattle.bs_flat_meaning.specs.declared.limits.TheConstants.{MAX_TERMINALS as most};
ghost use Rattle.bs_flat_nets.specs.Blocks.{module_of};
ghost use Rattle.bs_flat_nets.specs.Order.{module_in};
ghost use Rattle.bs_flat_elaborate.specs.Terminals as spec;

use bs_flat_meaning::{MAX_TERMINALS, Node};
use bs_flat_nets::FlatModule;
use bs_net::Gate;

/// What is left of so many inputs behind those of these gates; nothing where they have more.
fn left_behind(gates: &[Gate], room: usize) -> Option<usize>
    ensures { MatchOption result (room < sum_by spec.gate_terminals gates.now) (λ left. left + sum_by spec.gate_terminals gates.now ≡ room) }
{
    let mut left = room;
    'gates: for gate in gates {
        let width = gate.ins.slice().len();
        if width > left {
            return None;
        }
        left -= width;
    }
    Some(left)
}

/// The same behind the gates and constants of a module.
fn behind_module(block: &FlatModule, room: usize) -> Option<usize>
    ensures { MatchOption result (room < spec.terminals_in (module_of block.now)) (λ left. left + spec.terminals_in (module_of block.now) ≡ room) }
{
    left_behind(block.gates.slice(), room.checked_sub(block.consts.len())?)
}

/// The same behind the ports of a module.
fn behind_ports(block: &FlatModule, room: usize) -> Option<usize>
    ensures { MatchOption result (room < spec.port_terminals (module_of block.now)) (λ left. left + spec.port_terminals (module_of block.now) ≡ room) }
{
    room.checked_sub(block.inputs.len())?
        .checked_sub(block.outputs.len())
}

/// The module with a number.
fn block_at(blocks: &[FlatModule], number: u32) -> &FlatModule
    requires { number < length blocks.now }
    ensures { module_of result.now ≡ module_in (map module_of blocks.now) number }
{
    &blocks[number as usize]
}

/// Whether the gates on the paths of these nodes have more than `MAX_TERMINALS` inputs together with the constants there and
/// the ports of the top.
pub fn has_many_terminals(blocks: &[FlatModule], nodes: &[Node], top: u32) -> bool
    requires top { top < length blocks.now }
    requires within { All (λ p. p.of < length blocks.now) nodes.now }
    ensures { result ≡ nat_lt most (spec.terminals_of blocks.now nodes.now top) }
{
    let mut left = match behind_ports(block_at(blocks, top), MAX_TERMINALS) {
        Some(rest) => rest,
        None => return true,
    };
    'nodes: for node in nodes {
        match behind_module(block_at(blocks, node.of), left) {
            Some(rest) => left = rest,
            None => return true,
        }
    }
    false
}
