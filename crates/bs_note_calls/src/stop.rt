//! Notes on the stops of a run.
ghost use Rattle.std.specs.Prelude.{◌≡◌, ◌≤◌, ◌+◌, ◌++◌, codes, decimal, length, IfSome};
ghost use Rattle.bs_note_calls.specs.Stops.{cut_lists, cut_text, empty_text, length_text, lists_text, met_budget, step_text, text_of};

use crate::brief::{Brief, brief_pair, brief_plain};
use bs_bits::List;
use bs_report::{ListEnd, Step, Stop};

/// Whether a list met a budget.
fn met_budget(end: ListEnd) -> bool
    ensures { result ≡ met_budget end }
{
    match end {
        ListEnd::Finished(_) => false,
        ListEnd::Candidates => true,
        ListEnd::Conflicts => true,
    }
}

/// How many of these steps' lists were cut.
fn count_cut(steps: &[Step]) -> usize
    ensures { result ≡ cut_lists steps.now }
{
    let mut count = 0;
    'steps: for step in steps {
        if met_budget(step.end) {
            count += 1;
        }
    }
    count
}

/// The same of a report's.
pub fn cut_lists(steps: &List<Step>) -> usize
    ensures { result ≡ cut_lists steps.now }
{
    count_cut(steps.slice())
}

/// A sentence with the number of a step behind it.
fn step_sentence(sentence: &[u8], steps: u64) -> Brief
    requires { length sentence.now ≤ 320 }
    ensures text { result ≡ sentence.now ++ (codes " " ++ decimal steps) }
    ensures longer { length result ≤ length sentence.now + 21 }
{
    let mut said = Brief::of(sentence);
    said.push(b" ");
    said.push_number(steps);
    said
}

/// Two sentences, the first with the number of a step behind it.
fn step_note(first: &[u8], steps: u64, second: &[u8]) -> Brief
    requires first { length first.now ≤ 320 }
    requires second { length second.now ≤ 320 }
    ensures text { result ≡ step_text first.now steps second.now }
    ensures longer { length result ≤ length first.now + length second.now + 35 }
    ensures short { length result ≤ 675 }
{
    let said = step_sentence(first, steps);
    brief_pair(said.bytes(), second)
}

/// A note on a stop for want of a candidate.
fn empty_note(steps: u64) -> Brief
    ensures text { result ≡ empty_text steps }
    ensures short { length result ≤ 675 }
{
    if steps == 1 {
        return brief_pair(
            b"no state with the stored signature leads to the dumped state",
            b"look at the dump: its bits are in the order of the netlist's flip-flops, the first on the left; is it of this netlist, and `sig` of this signature?",
        );
    }
    step_note(
        b"no state with the stored signature leads to the state of the hit before step",
        steps,
        b"a recorded run reached that state another way: are the netlist and the signature those of the chip?",
    )
}

/// A note on a stop behind a list that was cut, by whether the search for a recorded moment was cut as well.
fn cut_note(steps: u64, cut: bool) -> Brief
    ensures text { result ≡ cut_text steps cut }
    ensures short { length result ≤ 675 }
{
    if cut {
        return step_note(
            b"the list was cut, and so was the search for a recorded moment that leads to the state in one cycle, in step",
            steps,
            b"ask for more with --candidates K, up to 65536, or --conflicts B, up to 2^40, or choose a signature that tells more states apart",
        );
    }
    step_note(
        b"the list was cut, and no recorded moment with the stored signature leads to the state in one cycle, in step",
        steps,
        b"record more or longer runs of what the chip did, or choose a signature that tells more states apart",
    )
}

/// What is said of how many lists were cut.
fn lists_sentence(lists: u64) -> Brief
    ensures text { result ≡ codes "so many of the lists were cut: " ++ (decimal lists ++ codes "; ask for more with --candidates K, up to 65536, or --conflicts B, up to 2^40, or choose a signature of more parities") }
    ensures short { length result ≤ 200 }
{
    let mut said = Brief::of(b"so many of the lists were cut: ");
    said.push_number(lists);
    said.push(
        b"; ask for more with --candidates K, up to 65536, or --conflicts B, up to 2^40, or choose a signature of more parities",
    );
    said
}

/// That as a note, where some were.
fn lists_note(lists: u64) -> Brief
    ensures text { result ≡ lists_text lists }
    ensures short { length result ≤ 207 }
{
    if lists == 0 {
        return Brief::of(b"");
    }
    let said = lists_sentence(lists);
    brief_plain(said.bytes())
}

/// A note on a stop at the budget of steps.
fn length_note(steps: u64, lists: u64) -> Brief
    ensures text { result ≡ length_text steps lists }
    ensures short { length result ≤ 675 }
{
    let mut note = step_note(
        b"the budget of steps is spent: this many were made:",
        steps,
        b"ask for more with --steps L, up to 65536; the trace so far is right",
    );
    let more = lists_note(lists);
    note.push(more.bytes());
    note
}

/// A note on why a run stopped after so many steps; none where it came to reset. `cut` is whether the search for a recorded moment was cut
/// in the last step, `lists` how many of the steps' lists were cut.
pub fn stop_note(steps: u64, stop: Stop, cut: bool, lists: u64) -> Option<Brief>
    ensures text { result ≡ text_of steps stop cut lists }
    ensures short { IfSome result (λ note. length note ≤ 675) }
{
    match stop {
        Stop::Reset => None,
        Stop::Length => Some(length_note(steps, lists)),
        Stop::Nohit => Some(step_note(
            b"no recorded run comes to a state that is listed in step",
            steps,
            b"record more or longer runs of what the chip did, or choose a signature that tells more states apart",
        )),
        Stop::Empty => Some(empty_note(steps)),
        Stop::Candidates => Some(cut_note(steps, cut)),
        Stop::Conflicts => Some(step_note(
            b"the budget of conflicts is spent, and no run comes to a listed state, in step",
            steps,
            b"ask for more with --conflicts B, up to 2^40, or choose a signature that tells more states apart",
        )),
    }
}
