//! The names of the nets, in the order of their numbers.
ghost use Rattle.std.specs.Prelude.{◌≤◌, ◌+◌, ◌≡◌, ◌<◌, ◌⊎◌, [], length, IfOk, OnOk, OnErr, Some, None, IsSome, slice_get};
ghost use Rattle.std.specs.Option.{option_map};
ghost use Rattle.bs_net.specs.Names.{with_key, number_of, net};

use crate::limits::MAX_NETS;
use crate::net::NetId;
use bs_bits::NoMemory;
use indexmap::IndexSet;
use std::alloc::Global;
use std::marker::Model;

/// An ordered set of at most `MAX_NETS` names. The number of a name is its place, from 0; contracts see the names' bytes.
#[derive(Drop)]
pub struct Names {
    keys: IndexSet<String>,
}

impl Model for Names {
    ghost use Rattle.std.specs.Prelude.{List, ℕ, map, length, ◌≤◌};
    ghost use Rattle.std.specs.String.{string_bytes};
    ghost use Rattle.bs_net.specs.declared.limits.TheConstants.{MAX_NETS};

    ghost Value = { List (List ℕ) };

    ghost view = { λ n. map string_bytes n.keys.keys };

    ghost invariant = { λ n. length n.keys.keys ≤ MAX_NETS };
}

impl Names {
    /// No names.
    pub fn new(alloc: Global) -> Names
        ensures { result ≡ [] }
    {
        Names {
            keys: IndexSet::new(alloc),
        }
    }

    /// How many names there are.
    pub fn len(&self) -> u32
        ensures { result ≡ length self.now }
    {
        self.keys.len() as u32
    }

    /// The number of a name, if it is there.
    pub fn number(&self, key: &str) -> Option<NetId>
        ensures { result ≡ option_map net (number_of self.now key.now) }
    {
        match self.keys.get_index_of(key) {
            Some(i) => Some(NetId(i as u32)),
            None => None,
        }
    }

    /// The name of a number.
    pub fn key(&self, n: NetId) -> &str
        requires { n.0 < length self.now }
        ensures { slice_get self.now n.0 ≡ Some result.now }
    {
        match self.keys.get_index(n.0 as usize) {
            Some(key) => key.as_str(),
            None => unreachable!(),
        }
    }

    /// The number of a name, which is put at the end where it is not there yet.
    pub fn add(&mut self, alloc: Global, key: &str) -> Result<NetId, NoMemory>
        requires { (length self.old < MAX_NETS) ⊎ IsSome (number_of self.old key.now) }
        ensures ok { OnOk result (self.new ≡ with_key self.old key.now) }
        ensures number { IfOk result (λ n. Some n.0 ≡ number_of self.new key.now) }
        ensures err { OnErr result (self.new ≡ self.old) }

        // what a caller's loop counts
        ensures within { IfOk result (λ n. n.0 < length self.new) }
        ensures grows { length self.old ≤ length self.new }
        ensures one_more { length self.new ≤ length self.old + 1 }
    {
        match self.number(key) {
            Some(n) => Ok(n),
            None => self.append(alloc, key),
        }
    }

    /// Puts a new name at the end.
    fn append(&mut self, alloc: Global, key: &str) -> Result<NetId, NoMemory>
        requires absent { number_of self.old key.now ≡ None }
        requires room { length self.old < MAX_NETS }
        ensures ok { OnOk result (self.new ≡ with_key self.old key.now) }
        ensures number { IfOk result (λ n. Some n.0 ≡ number_of self.new key.now) }
        ensures err { OnErr result (self.new ≡ self.old) }
    {
        let text = String::from_str(alloc, key)?;
        let (index, _) = self.keys.insert_full(text)?;
        Ok(NetId(index as u32))
    }
}
