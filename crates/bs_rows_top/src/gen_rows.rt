//! Lines of a job, drawn by the same generator in another program.
use bs_bits::{NoMemory, next_line};
use bs_gen::{GeneratedJob, make};
use std::alloc::Global;
use std::test::Fail;

/// The line of a text with this many lines before it.
fn line_after(text: &[u8], count: u32) -> Option<&[u8]> {
    let mut rest = text;
    for _ in 0..count {
        match next_line(rest) {
            Some((_, behind)) => rest = behind,
            None => return None,
        }
    }
    match next_line(rest) {
        Some((line, _)) => Some(line),
        None => None,
    }
}

/// Lines of the netlist, each behind so many others.
static NETLIST: [(u32, &str); 20] = [
    (0, "module demo(ck,x0,x1,x2,x3,x4);"),
    (1, "input ck,x0,x1,x2,x3,x4;"),
    (2, "not (dc0,c0);"),
    (3, "xor (dc1,c1,c0);"),
    (4, "and (t2,c0,c1);"),
    (5, "xor (dc2,c2,t2);"),
    (17, "xor (dc8,c8,t8);"),
    (18, "or (w0,r0_5,c6);"),
    (19, "nor (w1,c7,c1);"),
    (27, "or (w9,w8,r3_8);"),
    (300, "nor (w282,w278,r2_5);"),
    (596, "and (w578,w328,w398);"),
    (597, "xor (e0,r0_10,w574,x0);"),
    (601, "xor (e4,r4_10,w578,x4);"),
    (602, "dff fc0(ck,c0,dc0);"),
    (610, "dff fc8(ck,c8,dc8);"),
    (611, "dff fr0_0(ck,r0_0,e0);"),
    (612, "dff fr0_1(ck,r0_1,r0_0);"),
    (665, "dff fr4_10(ck,r4_10,r4_9);"),
    (666, "endmodule"),
];

/// Lines of the stimulus.
static STIMULUS: [(u32, &str); 9] = [
    (0, "run run1 256"),
    (1, "11101"),
    (2, "11011"),
    (256, "11110"),
    (257, "end"),
    (258, "run run2 256"),
    (259, "01011"),
    (8254, "11101"),
    (8255, "end"),
];

/// The first of these lines that the text has otherwise, by how many stand before it.
fn first_other(text: &[u8], rows: &[(u32, &str)]) -> Option<u32> {
    for (count, want) in rows {
        if line_after(text, *count) != Some(want.as_bytes()) {
            return Some(*count);
        }
    }
    None
}

/// Whether a job has these lines and no more, and its signature.
fn has_lines(job: &GeneratedJob) -> bool {
    let (netlist, stimulus) = (job.netlist.slice(), job.stimulus.slice());
    let signature = job.signature.slice() == b"bit r4_10\nxor r0_10 r1_10\n".as_slice();
    let netlist = first_other(netlist, &NETLIST).is_none() && line_after(netlist, 667).is_none();
    let stimulus = first_other(stimulus, &STIMULUS).is_none()
        && line_after(stimulus, 8256).is_none();
    signature && netlist && stimulus
}

/// The same of the job with a number.
fn is_made(alloc: Global, number: u64) -> Result<bool, NoMemory> {
    let job = make(alloc, number)?;
    Ok(has_lines(&job))
}

#[test]
fn lines_of_the_seventh_job(rt: HostRuntime) -> Result<(), Fail> {
    assert!(rt; is_made(rt.alloc(), 7)?);
    Ok(())
}
