//! Flip-flops by their names.
ghost use Rattle.std.specs.Prelude.{◌≡◌, ◌<◌, None, option_map, replicate, length, IsTrue, IfOk, IfSome};
ghost use Rattle.bs_bits.specs.Lines.{is_name as is_name_text};
ghost use Rattle.bs_net.specs.Names.{number_of};
ghost use Rattle.bs_scan.specs.ChoiceText.{flop_called, flop_named, flop_of_net, flop_parts};
ghost use Rattle.bs_scan.specs.Reading.{IsTable, noted};

use crate::flop_keys::{flop_called, flop_parts};
use bs_bits::NoMemory;
use bs_net::{NetId, Netlist};
use bs_net_names::KeyParts;
use std::alloc::Global;
use std::marker::Model;

/// The flip-flops of a netlist by the keys of their output nets: a look-up of a key takes the time of one in a hash map. Another name
/// is compared with each key.
#[derive(Drop)]
pub struct FlopNames<'a> {
    net: &'a Netlist,
    by_net: Vec<Option<u32>>,
    keys: Vec<KeyParts<'a>>,
}

impl<'a> Model for FlopNames<'a> {
    ghost use Rattle.std.specs.Prelude.{map};
    ghost use Rattle.bs_net.specs.Parts.{Parts};
    ghost use Rattle.bs_net_names.specs.Keys.{parts_in};
    ghost use Rattle.bs_scan.specs.Reading.{AreNames};

    ghost Value = { Parts };

    ghost view = { λ names. names.net.now.raw };

    ghost invariant = { λ names. AreNames names.net.now.raw names.by_net.items (map parts_in names.keys.items) };
}

/// As many places without a flip-flop.
fn no_flops(alloc: Global, count: usize) -> Result<Vec<Option<u32>>, NoMemory>
    ensures { IfOk result (λ table. table.items ≡ replicate count None) }
{
    Ok(vec![in alloc; None; count]?)
}

/// Notes a flip-flop at its output net, unless there is one already.
fn note(table: &mut Vec<Option<u32>>, net: NetId, flop: u32)
    requires { net.0 < length table.old.items }
    ensures { table.new.items ≡ noted table.old.items net.0 flop }
{
    let place = net.0 as usize;
    if table[place].is_none() {
        table[place] = Some(flop);
    }
}

/// For each net the flip-flop whose output it is.
fn flops_by_net(alloc: Global, net: &Netlist) -> Result<Vec<Option<u32>>, NoMemory>
    ensures { IfOk result (λ table. IsTable net.now.raw table.items) }
{
    let raw = net.raw();
    let flops = raw.flops.slice();
    let mut table = no_flops(alloc, raw.names.len() as usize)?;
    'flops: for i in 0..flops.len() {
        note(&mut table, flops[i].q, i as u32);
    }
    Ok(table)
}

/// A name as a text.
fn name_text(name: &[u8]) -> &str
    requires { IsTrue (is_name_text name.now) }
    ensures { result.now ≡ name.now }
{
    match str::from_utf8(name) {
        Ok(text) => text,
        Err(_) => unreachable!(),
    }
}

/// The net with a name.
fn net_named(net: &Netlist, name: &[u8]) -> Option<NetId>
    requires { IsTrue (is_name_text name.now) }
    ensures value { option_map (λ n. n.0) result ≡ number_of net.now.raw.names name.now }
    ensures within { IfSome result (λ n. n.0 < length net.now.raw.names) }
{
    net.raw().names.number(name_text(name))
}

impl<'a> FlopNames<'a> {
    /// The names of a netlist's flip-flops.
    pub fn new(alloc: Global, net: &'a Netlist) -> Result<FlopNames<'a>, NoMemory>
        ensures { IfOk result (λ names. names ≡ net.now.raw) }
    {
        let by_net = flops_by_net(alloc, net)?;
        let keys = flop_parts(alloc, net.raw())?;
        Ok(FlopNames { net, by_net, keys })
    }

    /// The number of the flip-flop whose output is a net.
    fn at(&self, net: NetId) -> Option<u32>
        requires { net.0 < length self.now.names }
        ensures value { result ≡ flop_of_net self.now.flops net.0 }
        ensures within { IfSome result (λ flop. flop < length self.now.flops) }
    {
        self.by_net[net.0 as usize]
    }

    /// The number of the flip-flop whose key alone is a name as RTL writes it.
    #[tactic(auto, using(crate::proofs::KeyLemmas::key_each))]
    fn called(&self, name: &[u8]) -> Option<u32>
        ensures value { result ≡ flop_called (flop_parts self.now) name.now }
        ensures within { IfSome result (λ flop. flop < length self.now.flops) }
    {
        let _raw = self.net.raw();
        match flop_called(self.keys.as_slice(), name) {
            Some(flop) => Some(flop as u32),
            None => None,
        }
    }

    /// The number of the flip-flop with a name: its key, or where no net has that key, the name by which RTL calls it alone.
    pub fn number(&self, name: &[u8]) -> Option<u32>
        requires { IsTrue (is_name_text name.now) }
        ensures value { result ≡ flop_named self.now name.now }
        ensures within { IfSome result (λ flop. flop < length self.now.flops) }
    {
        match net_named(self.net, name) {
            Some(net) => self.at(net),
            None => self.called(name),
        }
    }
}
