//! The joined nets of connections, or the first that does not go with its port.
ghost use Rattle.std.specs.Prelude.{◌≡◌, ◌++◌, OnOk};
ghost use Rattle.bs_flat_connect.specs.Joining as spec;
ghost use Rattle.bs_flat_meaning.specs.Connecting as flat;

use crate::fault::Fault;
use crate::matching::Matched;
use crate::ports::Port;
use crate::terms::{NetRange, term_nets};
use crate::wiring::Wiring;
use bs_bits::{List, NoMemory};
use bs_flat_nets::JoinedNets;
use bs_lex::NameTable;
use bs_verilog_syntax::Term;
use std::alloc::Global;

/// Where a term begins.
fn term_place(term: Term) -> u32
    ensures { result ≡ flat.term_place term }
{
    match term {
        Term::Constant(at, _) => at,
        Term::Named(name, _) => name.at,
    }
}

fn is_constant(term: Term) -> bool
    ensures { result ≡ flat.is_constant_term term }
{
    match term {
        Term::Constant(_, _) => true,
        Term::Named(_, _) => false,
    }
}

/// The run of a port with the nets for which a term stands, where they go with it.
fn run_of(port: Port, term: Term, stretch: NetRange) -> Result<JoinedNets, Fault>
    ensures { result ≡ spec.run_of port term stretch }
{
    let is_driven = is_constant(term) && port.is_output;
    if stretch.width == port.width as usize && !is_driven {
        Ok(JoinedNets {
            inner: port.first,
            outer: stretch.first,
            width: stretch.width as u32,
        })
    } else {
        Err(Fault::At(term_place(term)))
    }
}

/// The run of a port with the nets for which a term stands, if it stands for any.
fn run_for(port: Port, term: Term, found: Option<NetRange>) -> Result<JoinedNets, Fault>
    ensures { result ≡ spec.run_for port term found }
{
    match found {
        Some(stretch) => run_of(port, term, stretch),
        None => Err(Fault::At(term_place(term))),
    }
}

/// The run of a port with the nets of a term.
fn join_term(
    alloc: Global,
    table: &NameTable,
    wiring: &Wiring,
    port: Port,
    term: Term,
) -> Result<JoinedNets, Fault>
    ensures { spec.JoinsTerm table.now wiring.now port term result }
{
    let found = term_nets(alloc, table, wiring, term)?;
    run_for(port, term, found)
}

/// The run of a port, where there is one, with the nets of a term.
fn join_port(
    alloc: Global,
    table: &NameTable,
    wiring: &Wiring,
    port: Option<Port>,
    term: Term,
) -> Result<JoinedNets, Fault>
    ensures { spec.JoinsPort table.now wiring.now port term result }
{
    match port {
        Some(port) => join_term(alloc, table, wiring, port, term),
        None => Err(Fault::At(term_place(term))),
    }
}

/// The run of a port with the nets of a term, if there is a term.
fn join_plain(
    alloc: Global,
    table: &NameTable,
    wiring: &Wiring,
    port: Option<Port>,
    term: Option<Term>,
) -> Result<Option<JoinedNets>, Fault>
    ensures { spec.JoinsPlain table.now wiring.now port term result }
{
    match term {
        Some(term) => {
            let run = join_port(alloc, table, wiring, port, term)?;
            Ok(Some(run))
        }
        None => Ok(None),
    }
}

/// The run that a connection makes, if it has a term.
fn join_one(
    alloc: Global,
    table: &NameTable,
    wiring: &Wiring,
    one: Matched,
) -> Result<Option<JoinedNets>, Fault>
    ensures { spec.JoinsOne table.now wiring.now one result }
{
    match one.refused {
        Some(place) => Err(Fault::At(place)),
        None => join_plain(alloc, table, wiring, one.port, one.term),
    }
}

/// Puts a run at the end, if there is one.
fn add(runs: &mut List<JoinedNets>, run: Option<JoinedNets>) -> Result<(), NoMemory>
    ensures { OnOk result (runs.new ≡ runs.old ++ spec.runs_of run) }
{
    match run {
        Some(run) => {
            runs.push(run)?;
            Ok(())
        }
        None => Ok(()),
    }
}

/// The runs that connections make.
pub fn join(
    alloc: Global,
    table: &NameTable,
    wiring: &Wiring,
    matched: &[Matched],
) -> Result<List<JoinedNets>, Fault>
    ensures { spec.JoinsAll table.now wiring.now matched.now result }
{
    let mut runs = List::new(alloc);
    'each: for one in matched {
        let run = join_one(alloc, table, wiring, *one)?;
        add(&mut runs, run)?;
    }
    Ok(runs)
}
