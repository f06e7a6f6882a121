//! An order of modules in which each stands after those that it instances, or a ring of them.
ghost use Rattle.std.specs.Prelude.{◌≡◌, ◌<◌, ◌++◌, ◌^◌, length, reverse, map, All, IfOk, OnOk};
ghost use Rattle.bs_net.specs.declared.net.Gate.{Gate as gate_type};
ghost use Rattle.bs_flat_meaning.specs.Gates as gates_spec;
ghost use Rattle.bs_flat_meaning.specs.Ring.{IsLevels};

use bs_bits::{List, NoMemory};
use bs_net::{Gate, Kind, Levelling, NetId, Terms, levelize};
use std::alloc::Global;

/// How many instances a module may have.
/// So an instance's number has four bytes.
const MOST: usize = 4_294_967_295;

/// What a search of all modules finds, by their numbers.
#[derive(Drop)]
pub enum Levels {
    /// All modules once, each after those that it instances.
    Ordered(List<u32>),
    /// Distinct modules, each of which instances the next, and the last one the first; from the lowest number on.
    Ringed(List<u32>),
}

/// The nets of modules.
fn nets_of(alloc: Global, modules: &[u32]) -> Result<Terms, NoMemory>
    ensures { IfOk result (λ t. t ≡ gates_spec.nets_of modules.now) }
{
    let mut nets = Terms::new(alloc);
    'modules: for &module in modules {
        nets.push(NetId(module))?;
    }
    Ok(nets)
}

/// The gate that stands for a module: it drives the net of the module's number, and reads those of the modules that it
/// instances.
fn gate_of(alloc: Global, number: u32, instanced: &[u32]) -> Result<Gate, NoMemory>
    ensures { IfOk result (λ g. g ≡ gates_spec.gate_of number instanced.now) }
{
    let ins = nets_of(alloc, instanced)?;
    Ok(Gate {
        kind: Kind::And,
        out: NetId(number),
        ins,
    })
}

/// The gates that stand for modules.
#[tactic(auto, using(crate::proofs::LevelLemmas::gates_more))]
fn gates_of(alloc: Global, below: &[List<u32>]) -> Result<List<Gate>, NoMemory>
    requires { length below.now < 2 ^ 32 }
    ensures { IfOk result (λ gs. gs ≡ gates_spec.gates_of below.now) }
{
    let mut gates = List::new(alloc);
    'modules: for module in 0..below.len() {
        let gate = gate_of(alloc, module as u32, below[module].slice())?;
        gates.push(gate)?;
    }
    Ok(gates)
}

/// Adds numbers, the last one first.
fn push_reversed(ring: &mut List<u32>, numbers: &[u32]) -> Result<(), NoMemory>
    ensures { OnOk result (ring.new ≡ ring.old ++ reverse numbers.now) }
{
    'numbers: for i in (0..numbers.len()).rev() {
        ring.push(numbers[i])?;
    }
    Ok(())
}

/// The same ring the other way round, from the same number on.
fn turned(alloc: Global, numbers: &[u32]) -> Result<List<u32>, NoMemory>
    requires { 0 < length numbers.now }
    ensures { IfOk result (λ ring. ring ≡ gates_spec.turned numbers.now) }
{
    let mut ring = List::new(alloc);
    ring.push(numbers[0])?;
    push_reversed(&mut ring, &numbers[1..])?;
    Ok(ring)
}

/// Whether each module has at most `MOST` instances.
fn are_narrow(below: &[List<u32>]) -> bool
    ensures { result ≡ gates_spec.are_narrow below.now }
{
    below.iter().all(|instanced| instanced.len() <= MOST)
}

/// An order of modules in which each stands after those that it instances; or a ring of them. For each module `below` has the
/// modules that it instances, in file order. It takes time linear in the instances. More than `MOST`
/// instances of one, as in no text, are answered as out of memory.
pub fn module_levels(alloc: Global, below: &[List<u32>]) -> Result<Levels, NoMemory>
    requires few { length below.now < 2 ^ 32 }
    requires there { All (λ ns. All (λ n. n < length below.now) ns) below.now }
    ensures { IfOk result (λ levels. IsLevels below.now levels) }
{
    if !are_narrow(below) {
        return Err(NoMemory);
    }
    let gates = gates_of(alloc, below)?;
    match levelize(alloc, gates.slice(), below.len())? {
        Levelling::Ordered(order) => Ok(Levels::Ordered(order)),
        Levelling::Looped(against) => Ok(Levels::Ringed(turned(alloc, against.slice())?)),
    }
}
