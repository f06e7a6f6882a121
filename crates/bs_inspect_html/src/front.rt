//! What stands in front of the tables.
ghost use Rattle.std.specs.Prelude.{◌≡◌, ◌++◌, length, option_map, OnOk};
ghost use Rattle.bs_net.specs.Netlist.{circuit_of};
ghost use Rattle.bs_inspect_html.specs.Front.{audit_part, backtrace_part, budgets_line, chip_line, end_words, front_text, head_text, job_part, lists_words, steps_title, stop_part, stop_text, title_text};
ghost use Rattle.bs_inspect_html.specs.Signed.{file_in};

use crate::execution::{push_cycles_title, push_search};
use crate::numbers::{push_before, push_between};
use crate::paths::{push_path, push_path_before};
use crate::signed::{SignatureFile, push_items_line, push_job_files, push_styles};
use bs_bits::{NoMemory, push_number, push_piece};
use bs_inspect_report::is_execution;
use bs_net::Netlist;
use bs_report::{Budgets, Report, Stop};

/// Appends what a stop means.
fn push_stop(text: &mut Vec<u8>, stop: Stop) -> Result<(), NoMemory>
    ensures { OnOk result (text.new.items ≡ text.old.items ++ stop_text stop) }
{
    match stop {
        Stop::Reset => push_piece(
            text,
            b"Stop <b>reset</b>: the states below are a way from the reset state to the dump.",
        ),
        Stop::Length => push_piece(
            text,
            b"Stop <b>length</b>: as many steps were made as were asked for. The states below are a way from a recorded state to the dump.",
        ),
        Stop::Nohit => push_piece(
            text,
            b"Stop <b>nohit</b>: no recorded run comes into a state of the last list, though that list is complete.",
        ),
        Stop::Empty => push_piece(
            text,
            b"Stop <b>empty</b>: no state with the stored signature leads to the last state. The dump, the signature or the netlist is not the chip's.",
        ),
        Stop::Candidates => push_piece(
            text,
            b"Stop <b>candidates</b>: the last list was cut, and no recorded run comes into a state of it.",
        ),
        Stop::Conflicts => push_piece(
            text,
            b"Stop <b>conflicts</b>: the last search spent its budget, and no recorded run comes into a state of its list.",
        ),
    }
}

/// How many flip-flops there are.
fn flop_count(net: &Netlist) -> u64
    ensures { result ≡ length (circuit_of net.now.raw).flops }
{
    net.width() as u64
}

/// How many data inputs there are.
fn input_count(net: &Netlist) -> u64
    ensures { result ≡ length (circuit_of net.now.raw).inputs }
{
    net.data_inputs().len() as u64
}

/// Appends the title of a backtrace.
#[tactic(auto, unfolding(crate::specs::Front::steps_title))]
fn push_steps_title(text: &mut Vec<u8>, report: &Report) -> Result<(), NoMemory>
    ensures { OnOk result (text.new.items ≡ text.old.items ++ steps_title report.now) }
{
    push_piece(text, b"Steps back from the crash: ")?;
    push_number(text, report.steps.len() as u64)
}

/// Appends the title.
#[tactic(auto, unfolding(crate::specs::Front::title_text))]
fn push_title(text: &mut Vec<u8>, report: &Report) -> Result<(), NoMemory>
    ensures { OnOk result (text.new.items ≡ text.old.items ++ title_text report.now) }
{
    if is_execution(report) {
        push_cycles_title(text, report)
    } else {
        push_steps_title(text, report)
    }
}

/// Appends the head of the page.
fn push_head(
    text: &mut Vec<u8>,
    report: &Report,
    signature: Option<SignatureFile<'_>>,
) -> Result<(), NoMemory>
    ensures { OnOk result (text.new.items ≡ text.old.items ++ head_text report.now (option_map file_in signature.entry)) }
{
    push_piece(
        text,
        b"<!doctype html>\n<html lang='en'><head><meta charset='utf-8'><meta name='viewport' content='width=device-width'>\n<title>",
    )?;
    push_title(text, report)?;
    push_piece(text, b"</title>\n")?;
    push_styles(text, signature)?;
    push_piece(text, b"</head><body>\n")?;
    Ok(())
}

/// Appends what the stop means, or that the state was found.
fn push_end_words(text: &mut Vec<u8>, report: &Report) -> Result<(), NoMemory>
    ensures { OnOk result (text.new.items ≡ text.old.items ++ end_words report.now) }
{
    if is_execution(report) {
        push_piece(
            text,
            b"The state that was asked for is <b>reached</b>: the states below are an execution from reset that ends in it, and no shorter one does.",
        )
    } else {
        push_stop(text, report.stop)
    }
}

/// Appends the title and how it ended.
#[tactic(auto, unfolding(crate::specs::Front::stop_part))]
fn push_stop_part(text: &mut Vec<u8>, report: &Report) -> Result<(), NoMemory>
    ensures { OnOk result (text.new.items ≡ text.old.items ++ stop_part report.now) }
{
    push_piece(text, b"<h1>")?;
    push_title(text, report)?;
    push_piece(text, b"</h1>\n<p>")?;
    push_end_words(text, report)?;
    push_piece(text, b"</p>\n")
}

/// Appends how large the chip is.
fn push_chip(text: &mut Vec<u8>, net: &Netlist) -> Result<(), NoMemory>
    ensures { OnOk result (text.new.items ≡ text.old.items ++ chip_line net.now.raw) }
{
    push_between(text, b"<ul><li>", flop_count(net), b" flip-flops, ")?;
    push_before(text, input_count(net), b" data inputs</li>\n")
}

/// Appends how many lists there are.
#[tactic(auto, unfolding(crate::specs::Front::lists_words))]
fn push_lists(text: &mut Vec<u8>, report: &Report) -> Result<(), NoMemory>
    ensures { OnOk result (text.new.items ≡ text.old.items ++ lists_words report.now) }
{
    push_between(
        text,
        b"<li>",
        report.steps.len() as u64,
        b" lists; a finished one has all predecessors, each once</li>\n",
    )
}

/// Appends the budgets.
fn push_budgets(text: &mut Vec<u8>, budgets: Budgets) -> Result<(), NoMemory>
    ensures { OnOk result (text.new.items ≡ text.old.items ++ budgets_line budgets) }
{
    push_between(text, b"<li>asked for: ", budgets.steps, b" steps, ")?;
    push_before(text, budgets.candidates, b" candidates a list, ")?;
    push_before(text, budgets.conflicts, b" lemmas a search</li></ul>\n")
}

/// Appends how the report is checked.
fn push_audit(
    text: &mut Vec<u8>,
    netlist: &str,
    signature: Option<SignatureFile<'_>>,
    report: &str,
) -> Result<(), NoMemory>
    ensures { OnOk result (text.new.items ≡ text.old.items ++ audit_part netlist.now (option_map file_in signature.entry) report.now) }
{
    push_piece(
        text,
        b"<p class='d'>This page shows what the report says. Whether the report is right, this command tells, with the job's own files:</p>\n<pre>backspace audit ",
    )?;
    push_path(text, netlist)?;
    push_job_files(text, signature)?;
    push_path_before(text, report, b"</pre>\n")
}

/// Appends what a backtrace was asked for.
#[tactic(auto, unfolding(crate::specs::Front::backtrace_part))]
fn push_backtrace(
    text: &mut Vec<u8>,
    report: &Report,
    netlist: &str,
    signature: Option<SignatureFile<'_>>,
    path: &str,
) -> Result<(), NoMemory>
    ensures { OnOk result (text.new.items ≡ text.old.items ++ backtrace_part report.now netlist.now (option_map file_in signature.entry) path.now) }
{
    push_lists(text, report)?;
    push_budgets(text, report.budgets)?;
    push_audit(text, netlist, signature, path)
}

/// Appends what was asked for.
#[tactic(auto, unfolding(crate::specs::Front::job_part))]
fn push_job(
    text: &mut Vec<u8>,
    report: &Report,
    netlist: &str,
    signature: Option<SignatureFile<'_>>,
    path: &str,
) -> Result<(), NoMemory>
    ensures { OnOk result (text.new.items ≡ text.old.items ++ job_part report.now netlist.now (option_map file_in signature.entry) path.now) }
{
    if is_execution(report) {
        push_search(text, report.budgets, netlist, path)
    } else {
        push_backtrace(text, report, netlist, signature, path)
    }
}

/// Appends what stands in front of the tables, by the names of the files and what the signature is taken of, where one is given.
#[tactic(auto, unfolding(crate::specs::Front::front_text))]
pub fn push_front(
    text: &mut Vec<u8>,
    net: &Netlist,
    report: &Report,
    netlist: &str,
    signature: Option<SignatureFile<'_>>,
    path: &str,
) -> Result<(), NoMemory>
    ensures { OnOk result (text.new.items ≡ text.old.items ++ front_text net.now.raw report.now netlist.now (option_map file_in signature.entry) path.now) }
{
    push_head(text, report, signature)?;
    push_stop_part(text, report)?;
    push_chip(text, net)?;
    push_items_line(text, signature)?;
    push_job(text, report, netlist, signature, path)
}
