//! The nets of an instance that joins leave to it.
ghost use Rattle.std.specs.Prelude.{◌≡◌, ◌<◌, ◌≤◌, ◌-◌, if◌then◌else◌, length, map, All, is_some, nat_eq, ◌+◌};
ghost use Rattle.std.specs.List.{flat_map, list_any, IsDistinct};
ghost use Rattle.bs_flat_meaning.specs.Meaning.{joined_with};
ghost use Rattle.bs_flat_nets.specs.Blocks.{joins_of_run, own_of};
ghost use Rattle.bs_flat_nets.specs.Constants as spec;
ghost use Rattle.bs_flat_nets.specs.Nets.{weigh};

use crate::blocks::{FlatModule, JoinedNets};
use crate::constants::Bit;

/// Which nets of an instance are counted, of those that are joined with no net of the parent.
#[derive(Clone, Copy)]
pub enum Counted {
    /// Those that are no constant.
    Plain,
    /// Those that are this constant.
    Constant(bool),
}

/// Whether a run joins a net of its instance.
pub fn covers(run: JoinedNets, net: usize) -> bool
    ensures { result ≡ spec.covers run net }
{
    let inner = run.inner as usize;
    inner <= net && net - inner < run.width as usize
}

/// Whether one of some runs joins a net of their instance.
fn any_covers(runs: &[JoinedNets], net: usize) -> bool
    ensures { result ≡ list_any (λ r. spec.covers r net) runs.now }
{
    runs.iter().any(|run| covers(*run, net))
}

/// Whether runs join a net of their instance.
fn is_joined(runs: &[JoinedNets], net: usize) -> bool
    ensures { result ≡ is_some (joined_with (flat_map joins_of_run runs.now) net) }
{
    any_covers(runs, net)
}

/// How many of so many nets are left where runs join theirs.
fn unjoined(nets: usize, runs: &[JoinedNets]) -> usize
    ensures { result ≡ nets - length (flat_map joins_of_run runs.now) }
{
    let mut left = nets;
    'runs: for run in runs {
        left = left.saturating_sub(run.width as usize);
    }
    left
}

/// Whether a constant has a value and is joined by no run.
fn is_free(bit: Bit, runs: &[JoinedNets], value: bool) -> bool
    ensures { result ≡ spec.is_free value (flat_map joins_of_run runs.now) bit }
{
    let joined = is_joined(runs, bit.net);
    !joined && value == bit.value
}

/// 1 where something holds, and otherwise 0.
fn one_if(holds: bool) -> usize
    ensures is { result ≡ (if holds then 1 else 0) }
    ensures few { result ≤ 1 }
{
    if holds { 1 } else { 0 }
}

/// How many constants with a value runs do not join.
fn free_constants(bits: &[Bit], runs: &[JoinedNets], value: bool) -> usize
    ensures { result ≡ spec.free_count value (flat_map joins_of_run runs.now) bits.now }
{
    let mut count = 0;
    'each: for bit in bits {
        let free = is_free(*bit, runs, value);
        count += one_if(free);
    }
    count
}

/// How many of so many nets runs do not join, the constants aside.
fn plain_nets(nets: usize, bits: &[Bit], runs: &[JoinedNets]) -> usize
    ensures { result ≡ spec.plain_left nets (flat_map joins_of_run runs.now) bits.now }
{
    let zeros = free_constants(bits, runs, false);
    let ones = free_constants(bits, runs, true);
    unjoined(nets, runs)
        .saturating_sub(zeros)
        .saturating_sub(ones)
}

/// How many nets of a block with these joins are of a sort.
pub fn weight(sort: Counted, block: &FlatModule, bits: &[Bit], runs: &[JoinedNets]) -> usize
    requires bits { bits.now ≡ spec.known_constants (own_of block.now) }
    requires within { All (λ j. j.inner.0 < length block.now.names) (flat_map joins_of_run runs.now) }
    requires once { IsDistinct nat_eq (map (λ j. j.inner.0) (flat_map joins_of_run runs.now)) }
    ensures { result ≡ weigh sort (own_of block.now) (flat_map joins_of_run runs.now) }
{
    match sort {
        Counted::Plain => plain_nets(block.names.len(), bits, runs),
        Counted::Constant(value) => free_constants(bits, runs, value),
    }
}

/// The net of the parent with which a run joins a net that it covers.
pub fn outer_net(run: JoinedNets, net: usize) -> usize
    requires low { run.inner ≤ net }
    requires high { net - run.inner < run.width }
    ensures { result ≡ run.outer + (net - run.inner) }
{
    run.outer as usize + (net - run.inner as usize)
}

/// The net of the parent with which runs join a net of their instance, if one does.
pub fn outer_of(runs: &[JoinedNets], net: usize) -> Option<usize>
    ensures { result ≡ joined_with (flat_map joins_of_run runs.now) net }
{
    'each: for run in runs {
        if covers(*run, net) {
            return Some(outer_net(*run, net));
        }
    }
    None
}
