//! The modules of a design with their joined nets, or the first connection that does not go with its port.
ghost use Rattle.std.specs.Prelude.{◌≡◌, ◌<◌, length, map, All, IsTrue, IfOk, OnOk};
ghost use Rattle.bs_net.specs.Gate.{takes};
ghost use Rattle.bs_flat_meaning.specs.ModuleNumbers.{numbers_by};
ghost use Rattle.bs_flat_nets.specs.Blocks.{AreThere, numbers_of};
ghost use Rattle.bs_flat_nets.specs.Order.{below_blocks};
ghost use Rattle.bs_flat_connect.specs.Wiring.{IsWiringOf, read_of};
ghost use Rattle.bs_flat_connect.specs.Connecting as spec;

use crate::copies::{add_flops, add_gates, add_nets};
use crate::fault::Fault;
use crate::instances::{all_ports, children};
use crate::ports::Ports;
use crate::wiring::{Wiring, wire};
use bs_bits::{List, NoMemory};
use bs_flat_meaning::{FlatFault, Written};
use bs_flat_modules::{Modules, Own};
use bs_flat_nets::{Child, FlatModule};
use bs_lex::NameTable;
use bs_net::Const;
use std::alloc::Global;

/// A module with these nets and instances, and no parts yet.
fn without_parts(
    alloc: Global,
    names: List<String>,
    consts: List<Const>,
    children: List<Child>,
) -> FlatModule
    ensures { result ≡ spec.without_parts names consts children }
{
    FlatModule {
        names,
        inputs: List::new(alloc),
        outputs: List::new(alloc),
        consts,
        gates: List::new(alloc),
        flops: List::new(alloc),
        children,
    }
}

/// Puts a module's own parts behind those of a block.
fn add_parts(alloc: Global, block: &mut FlatModule, own: &Own) -> Result<(), NoMemory>
    ensures parts { OnOk result (block.new ≡ spec.with_parts block.old own.now) }
    ensures takes { OnOk result (All (λ g. IsTrue (takes g.kind (length g.ins))) own.now.parts.gates) }
{
    add_nets(&mut block.inputs, own.parts.inputs.slice())?;
    add_nets(&mut block.outputs, own.parts.outputs.slice())?;
    add_gates(alloc, &mut block.gates, own.parts.gates.slice())?;
    add_flops(&mut block.flops, own.parts.flops.slice())?;
    Ok(())
}

/// A block with a module's own parts behind its own.
fn with_parts(alloc: Global, mut block: FlatModule, own: &Own) -> Result<FlatModule, NoMemory>
    ensures parts { IfOk result (λ b. b ≡ spec.with_parts block own.now) }
    ensures takes { IfOk result (λ b. All (λ g. IsTrue (takes g.kind (length g.ins))) own.now.parts.gates) }
{
    match add_parts(alloc, &mut block, own) {
        Ok(()) => Ok(block),
        Err(want) => {
            drop(block);
            Err(want)
        }
    }
}

/// A module with its nets and its instances.
fn made(
    alloc: Global,
    own: &Own,
    wiring: Wiring,
    children: List<Child>,
) -> Result<FlatModule, NoMemory>
    ensures made { IfOk result (λ b. spec.IsMade own.now wiring children b) }
    ensures takes { IfOk result (λ b. All (λ g. IsTrue (takes g.kind (length g.ins))) b.gates) }
{
    let Wiring {
        keys,
        consts,
        scope,
        spans,
    } = wiring;
    drop(scope);
    drop(spans);
    match keys.into_names(alloc) {
        Ok(names) => {
            let bare = without_parts(alloc, names, consts, children);
            let block = with_parts(alloc, bare, own)?;
            Ok(block)
        }
        Err(want) => {
            drop(consts);
            drop(children);
            Err(want)
        }
    }
}

/// The module with this wiring, whose instances are of the modules with these numbers.
fn wired(
    alloc: Global,
    table: &NameTable,
    ports: &[Ports],
    below: &[u32],
    own: &Own,
    written: &[Written],
    wiring: Wiring,
) -> Result<FlatModule, Fault>
    requires each { length below.now ≡ length written.now }
    requires there { All (λ n. n < length ports.now) below.now }
    requires wiring { IsWiringOf table.now (read_of own.now written.now) wiring }
    ensures tells { spec.TellsBlock table.now ports.now below.now own.now written.now result }
    ensures takes { IfOk result (λ b. All (λ g. IsTrue (takes g.kind (length g.ins))) b.gates) }
    ensures numbers { IfOk result (λ b. numbers_of b.children ≡ below.now) }
{
    match children(alloc, table, &wiring, ports, below, written) {
        Ok(children) => {
            let block = made(alloc, own, wiring, children)?;
            Ok(block)
        }
        Err(fault) => {
            drop(wiring);
            Err(fault)
        }
    }
}

/// A module whose instances are of the modules with these numbers.
fn block(
    alloc: Global,
    table: &NameTable,
    ports: &[Ports],
    below: &[u32],
    own: &Own,
    written: &[Written],
) -> Result<FlatModule, Fault>
    requires each { length below.now ≡ length written.now }
    requires there { All (λ n. n < length ports.now) below.now }
    ensures tells { spec.TellsBlock table.now ports.now below.now own.now written.now result }
    ensures takes { IfOk result (λ b. All (λ g. IsTrue (takes g.kind (length g.ins))) b.gates) }
    ensures numbers { IfOk result (λ b. numbers_of b.children ≡ below.now) }
{
    let wiring = wire(alloc, table, own, written)?;
    wired(alloc, table, ports, below, own, written, wiring)
}

/// All modules.
fn blocks(
    alloc: Global,
    table: &NameTable,
    ports: &[Ports],
    below: &[List<u32>],
    owns: &[Own],
    written: &[List<Written>],
) -> Result<List<FlatModule>, Fault>
    requires owns { length owns.now ≡ length written.now }
    requires each { map length below.now ≡ map length written.now }
    requires there { All (λ ns. All (λ n. n < length ports.now) ns) below.now }
    ensures tells { spec.TellsBlocks table.now ports.now below.now owns.now written.now result }
    ensures takes { IfOk result (λ bs. All (λ b. All (λ g. IsTrue (takes g.kind (length g.ins))) b.gates) bs) }
    ensures numbers { IfOk result (λ bs. below_blocks bs ≡ below.now) }
{
    let mut all = List::new(alloc);
    'modules: for k in 0..owns.len() {
        let numbers = below[k].slice();
        let instances = written[k].slice();
        let block = block(alloc, table, ports, numbers, &owns[k], instances)?;
        all.push(block)?;
    }
    Ok(all)
}

/// All modules, each with its ports for those that instance it.
fn connected(
    alloc: Global,
    table: &NameTable,
    below: &[List<u32>],
    modules: &Modules,
) -> Result<List<FlatModule>, Fault>
    requires each { map length below.now ≡ map length modules.now.written }
    requires there { All (λ ns. All (λ n. n < length modules.now.owns) ns) below.now }
    requires owns { length modules.now.written ≡ length modules.now.owns }
    ensures connects { spec.Connects table.now below.now modules.now result }
    ensures takes { IfOk result (λ bs. All (λ b. All (λ g. IsTrue (takes g.kind (length g.ins))) b.gates) bs) }
    ensures numbers { IfOk result (λ bs. below_blocks bs ≡ below.now) }
{
    let owns = modules.owns.slice();
    let ports = all_ports(alloc, owns)?;
    let all = blocks(
        alloc,
        table,
        ports.slice(),
        below,
        owns,
        modules.written.slice(),
    );
    drop(ports);
    all
}

/// A refusal as one of a text.
fn fault_of(fault: Fault) -> FlatFault
    ensures { result ≡ spec.fault_of fault }
{
    match fault {
        Fault::At(place) => FlatFault::Connect(place),
        Fault::NoMemory => FlatFault::NoMemory,
    }
}

/// The modules of a design: each with all its nets, its own parts, and its instances with their joined nets; or the first term or
/// pin that does not go with its port. `below` has for each module the numbers of the modules that it instances, and `ids` the number
/// of each module's name.
pub fn connect(
    alloc: Global,
    table: &NameTable,
    below: &[List<u32>],
    ids: &[Option<u32>],
    modules: Modules,
) -> Result<List<FlatModule>, FlatFault>
    requires below { below.now ≡ numbers_by ids.now modules.written }
    requires there { All (λ ns. All (λ n. n < length modules.owns) ns) below.now }
    requires each { length modules.written ≡ length modules.owns }

    // the modules are those of the text, or the fault its first
    ensures blocks { spec.ConnectsTo table.now ids.now modules result }

    // what the blocks keep
    ensures takes { IfOk result (λ bs. All (λ b. All (λ g. IsTrue (takes g.kind (length g.ins))) b.gates) bs) }
    ensures placed { IfOk result (λ bs. (length bs ≡ length modules.owns) × AreThere bs) }
    ensures numbers { IfOk result (λ bs. below_blocks bs ≡ below.now) }
{
    match connected(alloc, table, below, &modules) {
        Ok(blocks) => Ok(blocks),
        Err(fault) => Err(fault_of(fault)),
    }
}
