//! Instance statements, as they are written.
ghost use Rattle.std.specs.Prelude.{◌≤◌, length, IfOk};
ghost use Rattle.bs_verilog_syntax.specs.Reading as spec;
ghost use Rattle.bs_flat_meaning.specs.Instancing as instancing_spec;

use bs_bits::List;
use bs_lex::{Lexeme, Name};
use bs_verilog_syntax::{
    Due, PackedConnection, Reader, VerilogFault, What, closed, connections, expect, expect_name,
    is_at, listed, name_of, place_of, rest_of,
};
use std::alloc::Global;

/// An instance as it is written: the name of its module, its own name, and its connections.
#[derive(Drop)]
pub struct Written {
    pub of: Name,
    pub name: Name,
    pub connections: List<PackedConnection>,
}

/// Reads the instances of a statement.
#[derive(Drop)]
struct InstanceReader {
    of: Name,
}

impl Reader<Written> for InstanceReader {
    ghost reading = { λ reader. instancing_spec.one_instance reader.of };

    #[tactic(auto, unfolding(crate::specs::Instancing::one_instance))]
    fn read<'a>(
        &self,
        alloc: Global,
        ts: &'a [Lexeme],
    ) -> Result<(Written, &'a [Lexeme]), VerilogFault> {
        let (name, rest) = expect_name(ts)?;
        let inside = expect(b'(', Due::AfterInstance, rest)?;
        let (connections, rest) = connections(alloc, inside)?;
        let written = Written {
            of: self.of,
            name,
            connections,
        };
        Ok((written, rest))
    }
}

/// The instances of a statement, which begins with the name of a module.
#[tactic(auto, unfolding(crate::specs::Instancing::instancing))]
pub fn instancing(alloc: Global, ts: &[Lexeme]) -> Result<(List<Written>, &[Lexeme]), VerilogFault>
    ensures reads { spec.Reads (λ ws. ws) result (instancing_spec.instancing ts.now) }
{
    let rest = rest_of(ts);
    if is_at(b'#', rest) {
        return Err(VerilogFault::Unsupported(place_of(rest), What::Parameter));
    }
    let (all, rest) = listed(alloc, &InstanceReader { of: name_of(ts) }, rest)?;
    closed(b';', Due::Nothing, all, rest)
}
