//! Netlists encoded without a signature.
use crate::netlists::netlist;
use bs_bits::{NoMemory, push_number, push_piece};
use bs_encode::Encoding;
use bs_net::Netlist;
use std::alloc::Global;
use std::test::Fail;

/// A shift register of so many flip-flops.
fn shift_register(alloc: Global, count: u64) -> Result<Vec<u8>, NoMemory> {
    let mut text = Vec::new(alloc);
    push_piece(
        &mut text,
        "module c(ck,a); input ck,a; dff f0(ck,q0,a);\n".as_bytes(),
    )?;
    for i in 1..count {
        push_piece(&mut text, "dff f".as_bytes())?;
        push_number(&mut text, i)?;
        push_piece(&mut text, "(ck,q".as_bytes())?;
        push_number(&mut text, i)?;
        push_piece(&mut text, ",q".as_bytes())?;
        push_number(&mut text, i - 1)?;
        push_piece(&mut text, ");\n".as_bytes())?;
    }
    push_piece(&mut text, "endmodule\n".as_bytes())?;
    Ok(text)
}

/// The numbers of variables and of clauses of an encoding, and how many clauses are left when they were taken.
fn taken(alloc: Global, mut encoding: Encoding) -> Sizes {
    let clauses = encoding.take_clauses(alloc);
    (encoding.vars(), clauses.len(), encoding.clauses().len())
}

/// The same of the encoding of a netlist.
fn sizes_of(alloc: Global, net: &Netlist) -> Option<Sizes> {
    match Encoding::plain(alloc, net) {
        Ok(encoding) => Some(taken(alloc, encoding)),
        Err(_) => None,
    }
}

/// The same of a netlist's text.
fn sizes(alloc: Global, text: &[u8]) -> Option<Sizes> {
    match netlist(alloc, text) {
        Some(net) => sizes_of(alloc, &net),
        None => None,
    }
}

/// The numbers of variables and of clauses, and of clauses that are left.
type Sizes = (u32, usize, usize);

/// Shift registers.
static REGISTERS: [(u64, Sizes); 3] = [(1, (4, 3, 0)), (2, (6, 5, 0)), (1_000, (2_002, 2_001, 0))];

/// Whether the shift register of so many flip-flops is encoded so.
fn is_encoded(alloc: Global, (count, want): &(u64, Sizes)) -> Result<bool, NoMemory> {
    let text = shift_register(alloc, *count)?;
    Ok(sizes(alloc, &text) == Some(*want))
}

#[test]
fn netlists_are_encoded_without_a_signature(rt: HostRuntime) -> Result<(), Fail> {
    for row in &REGISTERS {
        assert!(rt; is_encoded(rt.alloc(), row)?);
    }
    Ok(())
}
