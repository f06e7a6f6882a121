//! The keys of nets.
ghost use Rattle.std.specs.Prelude.{◌≡◌, ◌<◌, ◌≤◌, ◌&&◌, nat_le, length, Ok, string_bytes, slice_index};
ghost use Rattle.std.specs.List.{list_all};
ghost use Rattle.bs_verilog_scope.specs.Keys as spec;
ghost use Rattle.bs_lex.specs.Bytes as bytes;
ghost use Rattle.bs_bits.specs.Reading.{Answers};
ghost use Rattle.bs_verilog_syntax.specs.declared.fault.VerilogFault.TheVariants.{NoMemory as want};

use bs_lex::{begins_name, byte_at, is_of_name};
use bs_verilog_syntax::{Range, VerilogFault};
use std::alloc::Global;

fn are_of_name(name: &[u8]) -> bool
    ensures { result ≡ list_all bytes.is_of_name name.now }
{
    name.iter().all(|b| is_of_name(*b))
}

/// Whether a name has the form of a Name.
fn is_plain(name: &str) -> bool
    ensures { result ≡ spec.is_plain name.now }
{
    let all = are_of_name(name.as_bytes());
    begins_name(byte_at(name.as_bytes(), 0)) && all
}

/// The key of a scalar.
#[tactic(auto, unfolding(crate::specs::Keys::scalar_key))]
pub fn scalar_key(alloc: Global, name: &str) -> Result<String, VerilogFault>
    ensures { Answers want (λ k. string_bytes k) result (Ok (spec.scalar_key name.now)) }
{
    if is_plain(name) {
        Ok(String::from_str(alloc, name)?)
    } else {
        Ok(format!(in alloc; "\\{name}")?)
    }
}

/// The key of a vector's bit.
#[tactic(auto, unfolding(crate::specs::Keys::bit_key))]
pub fn bit_key(alloc: Global, name: &str, index: u32) -> Result<String, VerilogFault>
    ensures { Answers want (λ k. string_bytes k) result (Ok (spec.bit_key name.now index)) }
{
    if is_plain(name) {
        Ok(format!(in alloc; "{name}[{index}]")?)
    } else {
        Ok(format!(in alloc; "[{index}]\\{name}")?)
    }
}

/// The key of a constant.
pub fn constant_key(bit: bool) -> &'static str
    ensures { result.now ≡ spec.constant_key bit }
{
    if bit { "1'b1" } else { "1'b0" }
}

/// How many bits a vector has.
pub fn width(range: Range) -> usize
    ensures { result ≡ spec.width range }
{
    let down = range.left.saturating_sub(range.right) as usize;
    let up = range.right.saturating_sub(range.left) as usize;
    1 + (down + up)
}

/// The index of a vector's bit, counted from 0 at the left bound.
pub fn index_at(range: Range, bit: usize) -> u32
    requires { bit < spec.width range }
    ensures { result ≡ spec.index_at range bit }
{
    if range.left <= range.right {
        range.left + bit as u32
    } else {
        range.left - bit as u32
    }
}

fn is_between(low: u32, index: u32, high: u32) -> bool
    ensures { result ≡ (nat_le low index && nat_le index high) }
{
    low <= index && index <= high
}

/// Whether a vector has a bit with this index.
pub fn has_index(range: Range, index: u32) -> bool
    ensures { result ≡ spec.has_index range index }
{
    let upward = is_between(range.left, index, range.right);
    let downward = is_between(range.right, index, range.left);
    upward || downward
}
