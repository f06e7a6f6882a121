//! The instances of a module, each with its joined nets.
ghost use Rattle.std.specs.Prelude.{◌≡◌, ◌<◌, length, string_bytes, All, IfOk};
ghost use Rattle.bs_flat_nets.specs.Blocks.{numbers_of};
ghost use Rattle.bs_verilog_scope.specs.Keys.{text};
ghost use Rattle.bs_flat_connect.specs.Instances as spec;

use crate::fault::Fault;
use crate::joining::join;
use crate::matching::match_ports;
use crate::ports::{Ports, ports_of};
use crate::wiring::Wiring;
use bs_bits::{List, NoMemory};
use bs_flat_meaning::Written;
use bs_flat_modules::Own;
use bs_flat_nets::Child;
use bs_lex::{Name, NameTable};
use std::alloc::Global;

/// The ports of each module.
pub fn all_ports(alloc: Global, owns: &[Own]) -> Result<List<Ports>, NoMemory>
    ensures { IfOk result (λ ps. spec.AreAllPorts owns.now ps) }
{
    let mut all = List::new(alloc);
    'modules: for own in owns {
        let ports = ports_of(alloc, own)?;
        all.push(ports)?;
    }
    Ok(all)
}

/// The text of a name.
fn name_text(alloc: Global, table: &NameTable, name: Name) -> Result<String, NoMemory>
    ensures { IfOk result (λ t. string_bytes t ≡ text table.now name) }
{
    let text = String::from_str(alloc, table.text(name))?;
    Ok(text)
}

/// An instance of the module with a number and these ports.
fn child(
    alloc: Global,
    table: &NameTable,
    wiring: &Wiring,
    ports: &Ports,
    of: u32,
    written: &Written,
) -> Result<Child, Fault>
    ensures tells { spec.TellsChild table.now wiring.now ports.now of written.now result }
    ensures of { IfOk result (λ c. c.of ≡ of) }
{
    let matched = match_ports(alloc, ports, written.connections.slice())?;
    let joins = join(alloc, table, wiring, matched.slice())?;
    let name = name_text(alloc, table, written.name)?;
    Ok(Child { name, of, joins })
}

/// The instances of a module, by the numbers of their modules, of which all have their ports here.
pub fn children(
    alloc: Global,
    table: &NameTable,
    wiring: &Wiring,
    ports: &[Ports],
    below: &[u32],
    written: &[Written],
) -> Result<List<Child>, Fault>
    requires each { length below.now ≡ length written.now }
    requires there { All (λ n. n < length ports.now) below.now }
    ensures tells { spec.TellsChildren table.now wiring.now ports.now below.now written.now result }
    ensures numbers { IfOk result (λ cs. numbers_of cs ≡ below.now) }
{
    let mut all = List::new(alloc);
    'written: for (i, one) in written.iter().enumerate() {
        let of = below[i];
        let child = child(alloc, table, wiring, &ports[of as usize], of, one)?;
        all.push(child)?;
    }
    Ok(all)
}
