//! The keys of a module's nets, in the order of their numbers.
ghost use Rattle.std.specs.Prelude.{◌≡◌, ◌≤◌, [], ◌∷◌, ◌++◌, length, map, IfOk, OnOk, Some, None, string_bytes};
ghost use Rattle.std.specs.Option.{option_map};
ghost use Rattle.bs_net.specs.Names.{number_of, net, with_key};

use bs_bits::{List, NoMemory};
use bs_net::NetId;
use indexmap::IndexSet;
use std::alloc::Global;
use std::marker::Model;

/// How many keys there may be.
/// So a key's number has four bytes.
const MAX_KEYS: usize = 4_294_967_295;

/// An ordered set of keys, fewer than 2^32. The number of a key is its place, from 0; contracts see the keys' bytes.
#[derive(Drop)]
pub struct Keys {
    keys: IndexSet<String>,
}

impl Model for Keys {
    ghost use Rattle.std.specs.Prelude.{List as Seq, ℕ, map, length, ◌≤◌};
    ghost use Rattle.std.specs.String.{string_bytes};

    ghost Value = { Seq (Seq ℕ) };

    ghost view = { λ k. map string_bytes k.keys.keys };

    ghost invariant = { λ k. length k.keys.keys ≤ 4294967295 };
}

impl Keys {
    /// No keys.
    pub fn new(alloc: Global) -> Keys
        ensures { result ≡ [] }
    {
        Keys {
            keys: IndexSet::new(alloc),
        }
    }

    /// How many keys there are.
    pub fn len(&self) -> usize
        ensures count { result ≡ length self.now }
        ensures few { result ≤ 4294967295 }
    {
        self.keys.len()
    }

    /// The number of a key, if it is there.
    pub fn number(&self, key: &str) -> Option<NetId>
        ensures { result ≡ option_map net (number_of self.now key.now) }
    {
        match self.keys.get_index_of(key) {
            Some(i) => Some(NetId(i as u32)),
            None => None,
        }
    }

    /// Puts a key at the end where it is not there yet. A key more than 2^32 - 1 is answered as out of memory.
    pub fn add(&mut self, alloc: Global, key: &str) -> Result<(), NoMemory>
        ensures { OnOk result (self.new ≡ with_key self.old key.now) }
    {
        if self.number(key).is_some() {
            return Ok(());
        }
        self.append(alloc, key)?;
        Ok(())
    }

    /// Puts a new key at the end. That it is there, as none in a list of names, is answered as out of memory.
    pub fn push(&mut self, alloc: Global, key: &str) -> Result<(), NoMemory>
        ensures { OnOk result (self.new ≡ self.old ++ key.now ∷ []) }
    {
        if self.number(key).is_some() {
            return Err(NoMemory);
        }
        self.append(alloc, key)?;
        Ok(())
    }

    /// Puts a key at the end that is not there yet, and gives its number.
    pub fn append(&mut self, alloc: Global, key: &str) -> Result<NetId, NoMemory>
        requires absent { number_of self.old key.now ≡ None }
        ensures ok { OnOk result (self.new ≡ self.old ++ key.now ∷ []) }
        ensures number { IfOk result (λ n. n.0 ≡ length self.old) }
    {
        if self.keys.len() >= MAX_KEYS {
            return Err(NoMemory);
        }
        let text = String::from_str(alloc, key)?;
        let (index, _) = self.keys.insert_full(text)?;
        Ok(NetId(index as u32))
    }

    /// The keys in order.
    pub fn into_names(self, alloc: Global) -> Result<List<String>, NoMemory>
        ensures { IfOk result (λ l. map string_bytes l ≡ self) }
    {
        let mut names = List::new(alloc);
        'keys: for key in self.keys {
            names.push(key)?;
        }
        Ok(names)
    }
}
