//! The marks of one cycle: of what is kept and given, and of gates' outputs.
ghost use Rattle.std.specs.Prelude.{◌≡◌, ◌<◌, length, All, IsTrue, OnOk};
ghost use Rattle.bs_net.specs.Gate.{takes};
ghost use Rattle.bs_net.specs.Netlist.{circuit};
ghost use Rattle.bs_sim.specs.Marks.{gate_mark, mark_at};
ghost use Rattle.bs_net_facts.specs.Marked.{Marks, Stays, ShowAt, ShowBits, ShowKept, ShowBegun, AllSettled, IsGivenAt, has_bit, tell_bits};

use crate::block::{Block, Cone};
use crate::fact::Fact;
use crate::known_loads::KnownNet;
use crate::mark_table::Board;
use bs_bits::NoMemory;
use bs_net::Gate;
use bs_sim::{Mark, fixed, gate_mark};

/// Marks the facts of a cycle, from a place on, and gives the place of the first fact behind them.
#[tactic(auto, using(crate::proofs::CycleLemmas::stays_same, crate::proofs::CycleLemmas::stays_fact))]
fn put_given(
    board: &mut Board<'_>,
    given: &[Fact],
    from: usize,
    cycle: u32,
) -> Result<usize, NoMemory>
    ensures { OnOk result (Stays (ShowAt cycle given.now) board.old board.new) }
{
    'facts: for i in from..given.len() {
        let fact = given[i];
        if fact.cycle != cycle {
            return Ok(i);
        }
        board.put(fact.net, fixed(fact.bit))?;
    }
    Ok(given.len())
}

/// Marks nets by their bits.
#[tactic(auto, using(crate::proofs::CycleLemmas::stays_same, crate::proofs::CycleLemmas::stays_bit))]
fn put_bits(board: &mut Board<'_>, bits: &[Fact]) -> Result<(), NoMemory>
    ensures { OnOk result (Stays (ShowBits bits.now) board.old board.new) }
{
    'bits: for fact in bits {
        board.put(fact.net, fixed(fact.bit))?;
    }
    Ok(())
}

/// Marks what is kept.
#[tactic(auto, using(crate::proofs::CycleLemmas::stays_same, crate::proofs::CycleLemmas::stays_kept))]
fn put_kept(board: &mut Board<'_>, kept: &[KnownNet]) -> Result<(), NoMemory>
    ensures { OnOk result (Stays (ShowKept kept.now) board.old board.new) }
{
    'kept: for one in kept {
        board.put(one.net, one.mark)?;
    }
    Ok(())
}

/// Marks the output of a gate.
fn put_gate(board: &mut Board<'_>, gate: &Gate) -> Result<(), NoMemory>
    requires placed { All (λ n. n.0 < (circuit board.old.net).nets) gate.now.ins }
    requires taken { IsTrue (takes gate.now.kind (length gate.now.ins)) }
    ensures net { board.new.net ≡ board.old.net }
    ensures put { OnOk result (Marks gate.now.out.0 (gate_mark board.old.marks gate.now.kind gate.now.ins) board.old.marks board.new.marks) }
{
    let mark = gate_mark(board.marks(), gate);
    board.put(gate.out, mark)?;
    Ok(())
}

/// Marks the output of the gate of a number, if there is one.
#[tactic(auto, using(crate::proofs::CycleLemmas::stays_same, crate::proofs::CycleLemmas::gate_done, crate::proofs::CycleLemmas::gate_placed, crate::proofs::CycleLemmas::gate_takes))]
fn put_numbered(board: &mut Board<'_>, number: u32) -> Result<(), NoMemory>
    ensures { OnOk result (Stays (AllSettled (circuit board.old.net)) board.old board.new) }
{
    let net = board.net();
    let gates = net.raw().gates.slice();
    let place = number as usize;
    if place >= gates.len() {
        return Ok(());
    }
    let gate = &gates[place];
    put_gate(board, gate)?;
    Ok(())
}

/// Marks the outputs of some gates.
#[tactic(auto, using(crate::proofs::CycleLemmas::stays_same, crate::proofs::CycleLemmas::stays_gates))]
fn put_gates(board: &mut Board<'_>, gates: &[u32]) -> Result<(), NoMemory>
    ensures { OnOk result (Stays (AllSettled (circuit board.old.net)) board.old board.new) }
{
    'gates: for number in gates {
        put_numbered(board, *number)?;
    }
    Ok(())
}

/// Marks the bits of a block in the cycle in which they are given.
#[tactic(auto, using(crate::proofs::CycleLemmas::stays_same, crate::proofs::CycleLemmas::stays_begun))]
fn put_begun(board: &mut Board<'_>, block: &Block, cycle: u32) -> Result<(), NoMemory>
    ensures { OnOk result (Stays (ShowBegun block.now cycle) board.old board.new) }
{
    if !block.begun {
        return Ok(());
    }
    if cycle != block.since {
        return Ok(());
    }
    put_bits(board, block.bits.slice())?;
    Ok(())
}

/// Marks a cycle, with a block's facts from a place on, and gives the place of the first fact behind them.
#[tactic(auto, using(crate::proofs::CycleLemmas::stays_all))]
pub(crate) fn mark_cycle(
    board: &mut Board<'_>,
    kept: &[KnownNet],
    cone: &Cone,
    block: &Block,
    from: usize,
    cycle: u32,
) -> Result<usize, NoMemory>
    ensures { OnOk result (Stays (IsGivenAt (circuit board.old.net) block.now kept.now cycle) board.old board.new) }
{
    put_kept(board, kept)?;
    let next = put_given(board, block.given.slice(), from, cycle)?;
    put_begun(board, block, cycle)?;
    put_gates(board, cone.gates.slice())?;
    Ok(next)
}

/// Whether a mark says that a net has a bit.
fn has_bit(mark: Mark, bit: bool) -> bool
    ensures { result ≡ has_bit mark bit }
{
    match mark {
        Mark::Low => !bit,
        Mark::High => bit,
        Mark::Still => false,
        Mark::Moved => false,
    }
}

/// Whether the mark of a net says that it has its bit.
fn tells(marks: &[Mark], fact: Fact) -> bool
    ensures { result ≡ has_bit (mark_at marks.now fact.net.0) fact.bit }
{
    let place = fact.net.0 as usize;
    if place < marks.len() {
        return has_bit(marks[place], fact.bit);
    }
    false
}

/// Whether marks say that nets have their bits.
pub(crate) fn tell_bits(marks: &[Mark], bits: &[Fact]) -> bool
    ensures { result ≡ tell_bits marks.now bits.now }
{
    bits.iter().all(|fact| tells(marks, *fact))
}
