//! Faults of an output in memory: which put fails, and after how many bytes. So a text that is one put shows, and an empty put before
//! the first line. Faults of real files and outputs stand in tools/rows/faults.txt.

use crate::calls::{Answer, Fails, Texts, called};
use bs_outside::NoMemory;
use bs_top::Status;
use std::alloc::Global;
use std::test::Fail;

/// The toggle, a run of one cycle, its dump in state 1, and a report on it.
const TOGGLED: Texts<'static> = [
    "module t(ck); input ck; not g(d,q); dff f(ck,q,d); endmodule",
    "",
    "run a 1\n.\nend\n",
    "state 1\nsig .\nend\n",
    "backspace 1\nasked 64 candidates 256 conflicts 100000\nstep 1\npresent 1\nstored .\ncand 0 input .\nlist finished 7\nhit 1 0 0\nstop reset\ntrace 1\nstate 0\ninput .\nstate 1\nlog 7\ns\nb 6 -5 3 0\ns\n7 -5 -4 0 4 1 6 0\ne 7\nr 8\nd 6 7 0\nend\n",
];

/// The shift register with its second flip-flop as the signature, three ones that are shifted in, and a dump that is refused.
const SHIFTED: Texts<'static> = [
    "module sh(ck,a); input ck,a; dff f0(ck,q0,a); dff f1(ck,q1,q0); endmodule",
    "bit q1\n",
    "run a 3\n1\n1\n1\nend\n",
    "state 11\nsig none\nend\n",
    "",
];

/// The same with a run of one cycle and a dump that is not refused.
const QUIET: Texts<'static> = [
    "module sh(ck,a); input ck,a; dff f0(ck,q0,a); dff f1(ck,q1,q0); endmodule",
    "bit q1\n",
    "run a 1\n0\nend\n",
    "state 11\nsig 1\nend\n",
    "",
];

/// The words of a line, the files, how the output fails, the status, what is written, and the note where it is looked at.
type Row<'a> = (&'a str, Texts<'a>, Fails, Status, &'a str, Option<&'a str>);

/// Calls with a fault.
static FAULTS: [Row<'static>; 9] = [
    // the first put takes nothing
    (
        "dump n s t 1 3",
        SHIFTED,
        ((1, 0), 65536),
        Status::WriteFault,
        "",
        None,
    ),
    // the second put is that of the second line
    (
        "dump n s t 1 3",
        SHIFTED,
        ((2, 3), 65536),
        Status::WriteFault,
        "state 11\nsig",
        None,
    ),
    // the last put takes all, and fails
    (
        "dump n s t 1 3",
        SHIFTED,
        ((3, 4), 65536),
        Status::WriteFault,
        "state 11\nsig 1\nend\n",
        None,
    ),
    // the one put of a refusal
    (
        "run n s t d",
        SHIFTED,
        ((1, 7), 65536),
        Status::WriteFault,
        "refused",
        None,
    ),
    (
        "run n s t d",
        TOGGLED,
        ((2, 3), 65536),
        Status::WriteFault,
        "backspace 1\nask",
        None,
    ),
    (
        "run n s t d",
        TOGGLED,
        ((0, 0), 15),
        Status::WriteFault,
        "backspace 1\nask",
        None,
    ),
    (
        "wave n s t d r",
        TOGGLED,
        ((2, 3), 65536),
        Status::WriteFault,
        "$timescale 1ns $end\n$sc",
        None,
    ),
    // an output that tells no reason
    (
        "run n s t d",
        QUIET,
        ((0, 0), 71),
        Status::WriteFault,
        "backspace 1\nasked 64 candidates 256 conflicts 100000\nstep 1\npresent 11\n",
        Some(
            "note: standard output failed after 4 whole lines: no reason is known\nnote: what went out is the front of the answer; send it to a file with room, or let the reader read on\n",
        ),
    ),
    // a file that tells no reason
    (
        "run gone s t d",
        QUIET,
        ((0, 0), 65536),
        Status::ReadFault,
        "refused netlist ReadFault\n",
        Some("note: gone: this file could not be read\n"),
    ),
];

/// Whether an answer is this.
fn is_answer(answer: &Answer, status: Status, out: &str, note: Option<&str>) -> bool {
    let noted = match note {
        Some(note) => answer.note.as_slice() == note.as_bytes(),
        None => true,
    };
    answer.status == status && answer.out.as_slice() == out.as_bytes() && noted
}

/// Whether a call has its answer.
fn is_answered(alloc: Global, row: &Row<'_>) -> Result<bool, NoMemory> {
    match called(alloc, row.0, &row.1, row.2) {
        Ok(answer) => Ok(is_answer(&answer, row.3, row.4, row.5)),
        Err(fault) => Err(fault),
    }
}

/// The number of the first of these calls that has another answer.
fn first_other(alloc: Global, rows: &[Row<'_>]) -> Result<Option<usize>, NoMemory> {
    for (number, row) in rows.iter().enumerate() {
        if !is_answered(alloc, row)? {
            return Ok(Some(number));
        }
    }
    Ok(None)
}

#[test]
fn faults_are_answered(rt: HostRuntime) -> Result<(), Fail> {
    assert_eq!(rt; first_other(rt.alloc(), &FAULTS)?, None);
    Ok(())
}
