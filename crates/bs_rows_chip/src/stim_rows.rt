//! Stimuli that are written back as they were read, at a small and a great size: no program writes one so.
use bs_bits::{NoMemory, push_piece};
use bs_stim::{MAX_CYCLES, MAX_TEXT, Runs, StimFault, read, write};
use std::alloc::Global;
use std::test::Fail;

/// Whether runs have this text.
fn have_text(alloc: Global, runs: &Runs, text: &[u8]) -> Result<bool, NoMemory> {
    let mut written = Vec::new(alloc);
    write(runs, &mut written)?;
    Ok(written.as_slice() == text)
}

/// Whether a text is read as runs that have it again.
fn is_written_back(alloc: Global, text: &[u8], width: usize) -> Result<bool, StimFault> {
    if text.len() > MAX_TEXT {
        return Ok(false);
    }
    let runs = read(alloc, text, width)?;
    Ok(have_text(alloc, &runs, text)?)
}

/// A run of as many cycles as there may be, each with one input line.
fn longest_run(alloc: Global, line: &[u8]) -> Result<Vec<u8>, NoMemory> {
    let mut text = Vec::new(alloc);
    push_piece(&mut text, b"run a 65536\n")?;
    for _ in 0..MAX_CYCLES {
        push_piece(&mut text, line)?;
    }
    push_piece(&mut text, b"end\n")?;
    Ok(text)
}

/// Whether the longest run with this input is written back.
fn is_longest(alloc: Global, line: &[u8], width: usize) -> Result<bool, StimFault> {
    let text = longest_run(alloc, line)?;
    is_written_back(alloc, &text, width)
}

/// Two runs of inputs of 70 bits.
const WIDE: &[u8] =
    b"run a 1\n1111111111111111111111111111111111111111111111111111111111111111111111\nend\nrun b 3\n0000000000000000000000000000000000000000000000000000000000000000000000\n0110100110010110100101100110100110010110011010010110100110010110010110\n1000000000000000000000000000000000000000000000000000000000000000000001\nend\n";

#[test]
fn stimuli_are_written_back(rt: HostRuntime) -> Result<(), Fail> {
    let alloc = rt.alloc();
    assert!(rt; matches!(is_written_back(alloc, WIDE, 70), Ok(true)));
    assert!(rt; matches!(is_longest(alloc, b"101\n", 3), Ok(true)));
    assert!(rt; matches!(is_longest(alloc, b".\n", 0), Ok(true)));
    Ok(())
}
