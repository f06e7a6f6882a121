//! The walks over the files: each is fetched and read once, up to the first that stops the walk.
ghost use Rattle.std.specs.Prelude.{◌≡◌, map};
ghost use Rattle.bs_outside.specs.declared.file.File.TheVariants as files;
ghost use Rattle.bs_outside.specs.Plan.{read_as};
ghost use Rattle.bs_outside.specs.Telling.{WalksDiagnosed};
ghost use Rattle.bs_top_files.specs.Causes.{CheckSays, NoteSays};
ghost use Rattle.bs_inspect_files.specs.Readings.{pattern_read};
ghost use Rattle.bs_inspect_files.specs.FlopFiles.{bits_file, bits_of, chain_step, joined_step, named_of, order_of, pattern_step, scanned_in, scanned_of};

use crate::called::called_or_diagnostic;
use crate::order::order_or_diagnostic;
use crate::pattern::{file_in, joined, pattern_or_diagnostic};
use crate::ready::Scanned;
use bs_bits::Bits;
use bs_net::Netlist;
use bs_outside::{File, JobFault, Shelf, WalkStop, fetch_file, settle_diagnostic};
use bs_top_files::load_netlist;
use std::alloc::Global;

/// Drops a value, which a walk that stops lets go.
fn let_go<T: Drop>(_value: T) {}

/// A netlist, where nets of it have these names.
pub fn load_named<S: Shelf>(
    alloc: Global,
    shelf: &mut S,
    netlist: &str,
    names: &[&str],
) -> Result<Netlist, WalkStop>
    ensures { WalksDiagnosed CheckSays NoteSays S.held S.faults S.leads shelf.old shelf.new
        (named_of netlist.now (map (λ s. s.now) names.now)) (λ net. net.raw) result }
{
    let net = load_netlist(alloc, shelf, netlist)?;
    let known = called_or_diagnostic(alloc, &net, names);
    match settle_diagnostic(File::Name, known) {
        Ok(()) => Ok(net),
        Err(stop) => {
            let_go(net);
            Err(stop)
        }
    }
}

/// The flip-flops of a netlist's scan chain in its order.
fn load_order<S: Shelf>(
    alloc: Global,
    shelf: &mut S,
    net: &Netlist,
    order: &str,
) -> Result<Vec<usize>, WalkStop>
    ensures { WalksDiagnosed CheckSays NoteSays S.held S.faults S.leads shelf.old shelf.new
        (order_of net.now.raw order.now) (λ chain. chain.items) result }
{
    let bytes = fetch_file(alloc, shelf, File::Map, order)?;
    settle_diagnostic(File::Map, order_or_diagnostic(alloc, order, &bytes, net))
}

/// The bits of a text, one for each of so many lines.
fn load_bits<S: Shelf>(
    alloc: Global,
    _shelf: &mut S,
    text: &[u8],
    lines: usize,
) -> Result<Bits, WalkStop>
    ensures { WalksDiagnosed CheckSays NoteSays S.held S.faults S.leads _shelf.old _shelf.new
        (read_as files.State (pattern_read lines text.now)) (λ bits. bits) result }
{
    settle_diagnostic(File::State, pattern_or_diagnostic(alloc, text, lines))
}

/// The bits of a file's text.
fn load_joined<S: Shelf>(
    alloc: Global,
    shelf: &mut S,
    text: &[u8],
    lines: usize,
) -> Result<Bits, WalkStop>
    ensures { WalksDiagnosed CheckSays NoteSays S.held S.faults S.leads shelf.old shelf.new
        (joined_step lines text.now) (λ bits. bits) result }
{
    match joined(alloc, text) {
        Ok(bits) => load_bits(alloc, shelf, bits.as_slice(), lines),
        Err(_) => Err(WalkStop::Plain(JobFault::NoMemory)),
    }
}

/// The bits of a file.
fn load_bits_file<S: Shelf>(
    alloc: Global,
    shelf: &mut S,
    name: &str,
    lines: usize,
) -> Result<Bits, WalkStop>
    ensures { WalksDiagnosed CheckSays NoteSays S.held S.faults S.leads shelf.old shelf.new
        (bits_file lines name.now) (λ bits. bits) result }
{
    let bytes = fetch_file(alloc, shelf, File::Dump, name)?;
    load_joined(alloc, shelf, &bytes, lines)
}

/// The bits of a word, or of the file that it names behind `@`.
fn load_word<S: Shelf>(
    alloc: Global,
    shelf: &mut S,
    word: &str,
    lines: usize,
) -> Result<Bits, WalkStop>
    ensures { WalksDiagnosed CheckSays NoteSays S.held S.faults S.leads shelf.old shelf.new
        (bits_of lines word.now) (λ bits. bits) result }
{
    match file_in(word) {
        Some(name) => load_bits_file(alloc, shelf, name, lines),
        None => load_bits(alloc, shelf, word.as_bytes(), lines),
    }
}

/// A netlist with the order of its scan chain, and a pattern.
fn load_pattern<S: Shelf>(
    alloc: Global,
    shelf: &mut S,
    net: Netlist,
    order: Vec<usize>,
    pattern: &str,
) -> Result<Scanned, WalkStop>
    ensures { WalksDiagnosed CheckSays NoteSays S.held S.faults S.leads shelf.old shelf.new
        (pattern_step net.raw order.items pattern.now) scanned_in result }
{
    match load_word(alloc, shelf, pattern, order.len()) {
        Ok(bits) => Ok(Scanned {
            net,
            order,
            pattern: bits,
        }),
        Err(stop) => {
            let_go(net);
            let_go(order);
            Err(stop)
        }
    }
}

/// A netlist with the order of its scan chain out of a file, and a pattern.
fn load_chain<S: Shelf>(
    alloc: Global,
    shelf: &mut S,
    net: Netlist,
    order: &str,
    pattern: &str,
) -> Result<Scanned, WalkStop>
    ensures { WalksDiagnosed CheckSays NoteSays S.held S.faults S.leads shelf.old shelf.new
        (chain_step net.raw order.now pattern.now) scanned_in result }
{
    match load_order(alloc, shelf, &net, order) {
        Ok(chain) => load_pattern(alloc, shelf, net, chain, pattern),
        Err(stop) => {
            let_go(net);
            Err(stop)
        }
    }
}

/// A netlist, the order of its scan chain, which may lack flip-flops, and a pattern in that order: bits, or the name of their file behind
/// `@`.
pub fn load_scanned<S: Shelf>(
    alloc: Global,
    shelf: &mut S,
    netlist: &str,
    order: &str,
    pattern: &str,
) -> Result<Scanned, WalkStop>
    ensures { WalksDiagnosed CheckSays NoteSays S.held S.faults S.leads shelf.old shelf.new
        (scanned_of netlist.now order.now pattern.now) scanned_in result }
{
    match load_netlist(alloc, shelf, netlist) {
        Ok(net) => load_chain(alloc, shelf, net, order, pattern),
        Err(stop) => Err(stop),
    }
}
