//! What is said of the names of a module, and the keys of their bits.
ghost use Rattle.std.specs.Prelude.{◌≡◌, ◌≤◌, IfOk, string_bytes};
ghost use Rattle.bs_verilog_scope.specs.Checking.{looked};
ghost use Rattle.bs_verilog_scope.specs.Declaring as declaring;
ghost use Rattle.bs_verilog_scope.specs.Keys as keys;
ghost use Rattle.bs_flat_connect.specs.Wiring as wiring;

use bs_bits::NoMemory;
use bs_verilog_scope::{Scope, bit_key, scalar_key, scope_of, width};
use bs_verilog_syntax::{Declared, Range};
use std::alloc::Global;

/// What is said of each declared name.
pub fn said(alloc: Global, declared: &[Declared]) -> Result<Scope, NoMemory>
    ensures { IfOk result (λ s. looked s ≡ declaring.said declared.now) }
{
    match scope_of(alloc, declared) {
        Ok(scope) => Ok(scope),
        Err(_) => Err(NoMemory),
    }
}

/// How many bits a declared name has.
pub fn bit_count(range: Option<Range>) -> usize
    ensures count { result ≡ wiring.bit_count range }
    ensures few { result ≤ 4294967296 }
{
    match range {
        Some(range) => width(range),
        None => 1,
    }
}

/// The key of a name of one bit.
pub fn scalar(alloc: Global, name: &str) -> Result<String, NoMemory>
    ensures { IfOk result (λ k. string_bytes k ≡ keys.scalar_key name.now) }
{
    match scalar_key(alloc, name) {
        Ok(key) => Ok(key),
        Err(_) => Err(NoMemory),
    }
}

/// The key of a vector's bit.
pub fn vector_bit(alloc: Global, name: &str, index: u32) -> Result<String, NoMemory>
    ensures { IfOk result (λ k. string_bytes k ≡ keys.bit_key name.now index) }
{
    match bit_key(alloc, name, index) {
        Ok(key) => Ok(key),
        Err(_) => Err(NoMemory),
    }
}
