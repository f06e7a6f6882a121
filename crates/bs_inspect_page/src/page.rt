//! The page of a report.
ghost use Rattle.std.specs.Prelude.{◌≡◌, ◌<◌, ◌^◌, ◌++◌, length, map, option_map, All, IfOk, OnOk};
ghost use Rattle.bs_inspect_view.specs.Signals.{signal_in};
ghost use Rattle.bs_inspect_html.specs.Figures.{figure_in};
ghost use Rattle.bs_inspect_page.specs.Rows.{group_text};
ghost use Rattle.bs_inspect_html.specs.Reads.{signed_of};
ghost use Rattle.bs_inspect_html.specs.Signed.{file_in};
ghost use Rattle.bs_inspect_page.specs.Page.{AreDrawnFlops, AreDrawnInputs, ShowsFigure, ShowsReport, asked_in, end_text, inputs_heading, input_figure, legend_text, page_text, state_figure, steps_shown, table_front, trace_front, trace_text, trace_words};

use crate::columns::push_columns;
use crate::drawn::{keep_first, keep_first_drawn};
use crate::last_list::last_text;
use crate::opens::opens_of;
use crate::options::PageOptions;
use crate::rows::push_group;
use crate::step_table::push_step_table;
use bs_bits::{Bits, List, NoMemory, push_piece};
use bs_inspect_html::{Figure, SignatureFile, push_front, signed_of};
use bs_inspect_report::{flop_signals, input_signals, is_execution};
use bs_inspect_view::Signal;
use bs_net::Netlist;
use bs_report::Report;
use std::alloc::Global;

/// Appends what stands above the trace.
fn push_trace_words(text: &mut Vec<u8>, report: &Report) -> Result<(), NoMemory>
    ensures { OnOk result (text.new.items ≡ text.old.items ++ trace_words report.now) }
{
    if is_execution(report) {
        push_piece(
            text,
            b"<h2 id='t'>Trace</h2>\n<p class='d'>Cycle 0 is reset, and the last state is the one that was asked for. A vector is a number of base 16.</p>\n",
        )
    } else {
        push_piece(
            text,
            b"<h2 id='t'>Trace</h2>\n<p class='d'>Where a cell is hatched, other candidates of that list differ. A vector is a number of base 16.</p>\n",
        )
    }
}

/// Appends what a mark beside a name means, where there is a signature.
fn push_legend(text: &mut Vec<u8>, signature: Option<SignatureFile<'_>>) -> Result<(), NoMemory>
    ensures { OnOk result (text.new.items ≡ text.old.items ++ legend_text (option_map file_in signature.entry)) }
{
    match signature {
        Some(_file) => push_piece(
            text,
            b"<p class='d'>Where <b>signature</b> stands beside a name, an item of the signature reads a flip-flop of that signal, alone or in a parity.</p>\n",
        ),
        None => Ok(()),
    }
}

/// Appends the front of the table.
fn push_table_front(text: &mut Vec<u8>) -> Result<(), NoMemory>
    ensures { OnOk result (text.new.items ≡ text.old.items ++ table_front) }
{
    push_piece(
        text,
        b"<div class='late' tabindex='0' role='region' aria-labelledby='t'><table class='w'>\n",
    )
}

/// Appends what stands in front of the trace.
#[tactic(auto, unfolding(crate::specs::Page::trace_front))]
fn push_trace_front(
    text: &mut Vec<u8>,
    report: &Report,
    signature: Option<SignatureFile<'_>>,
) -> Result<(), NoMemory>
    ensures { OnOk result (text.new.items ≡ text.old.items ++ trace_front report.now (option_map file_in signature.entry)) }
{
    push_trace_words(text, report)?;
    push_legend(text, signature)?;
    push_table_front(text)?;
    push_columns(text, report)?;
    Ok(())
}

/// Appends the end of the page.
fn push_end(text: &mut Vec<u8>, report: &Report) -> Result<(), NoMemory>
    ensures { OnOk result (text.new.items ≡ text.old.items ++ end_text report.now) }
{
    if is_execution(report) {
        push_piece(
            text,
            b"</table></div>\n<p class='d'>An execution is a way from reset to the state that was asked for, not surely the only one. The values of a cycle are those before its clock edge.</p>\n</body></html>\n",
        )
    } else {
        push_piece(
            text,
            b"</table></div>\n<p class='d'>A trace is a way from its first state to the dump, not surely the one that the chip took. The values of a cycle are those before its clock edge; the inputs of the dump's own cycle are not known.</p>\n</body></html>\n",
        )
    }
}

/// Appends the steps of a backtrace.
fn push_steps(text: &mut Vec<u8>, report: &Report) -> Result<(), NoMemory>
    ensures { OnOk result (text.new.items ≡ text.old.items ++ steps_shown report.now) }
{
    if is_execution(report) {
        Ok(())
    } else {
        push_step_table(text, report)
    }
}

/// Appends the rows of the data inputs.
fn push_inputs(text: &mut Vec<u8>, report: &Report, inputs: &[Signal<'_>]) -> Result<(), NoMemory>
    requires { All (λ s. length s.places < 2 ^ 32) inputs.now }
    ensures { OnOk result (text.new.items ≡ text.old.items ++ group_text inputs_heading (input_figure report.now) (map signal_in inputs.now)) }
{
    let none = List::new(*text.allocator());
    let unread = Bits::new(*text.allocator());
    let figure = Figure {
        moments: &report.inputs,
        opens: &none,
        signed: &unread,
    };
    push_group(
        text,
        b"data inputs, in the cycle behind the state",
        figure,
        inputs,
    )
}

/// Appends the trace.
fn push_trace(
    text: &mut Vec<u8>,
    report: &Report,
    signature: Option<SignatureFile<'_>>,
    figure: Figure<'_>,
    flops: &[Signal<'_>],
    inputs: &[Signal<'_>],
) -> Result<(), NoMemory>
    requires few_flops { All (λ s. length s.places < 2 ^ 32) flops.now }
    requires few_inputs { All (λ s. length s.places < 2 ^ 32) inputs.now }
    ensures { OnOk result (text.new.items ≡ text.old.items ++ trace_text report.now (option_map file_in signature.entry) (figure_in figure.entry) (map signal_in flops.now) (map signal_in inputs.now)) }
{
    push_trace_front(text, report, signature)?;
    push_inputs(text, report, inputs)?;
    push_group(text, b"flip-flops", figure, flops)?;
    push_end(text, report)?;
    Ok(())
}

/// The flip-flops that are drawn.
fn drawn_flops<'a>(
    alloc: Global,
    net: &'a Netlist,
    asked: &PageOptions<'_>,
    figure: Figure<'_>,
) -> Result<Vec<Signal<'a>>, NoMemory>
    ensures are { IfOk result (λ signals. AreDrawnFlops net.now.raw (asked_in asked.now) (figure_in figure.entry) (map signal_in signals.items)) }
    ensures few { IfOk result (λ signals. All (λ s. length s.places < 2 ^ 32) signals.items) }
{
    let mut signals = flop_signals(alloc, net, asked.only)?;
    keep_first_drawn(asked, figure, &mut signals);
    Ok(signals)
}

/// The data inputs that are drawn.
fn drawn_inputs<'a>(
    alloc: Global,
    net: &'a Netlist,
    asked: &PageOptions<'_>,
) -> Result<Vec<Signal<'a>>, NoMemory>
    ensures are { IfOk result (λ signals. AreDrawnInputs net.now.raw (asked_in asked.now) (map signal_in signals.items)) }
    ensures few { IfOk result (λ signals. All (λ s. length s.places < 2 ^ 32) signals.items) }
{
    let mut signals = input_signals(alloc, net, asked.only)?;
    keep_first(asked.most, &mut signals);
    Ok(signals)
}

/// Appends the page with these signals and this last list.
fn push_page(
    text: &mut Vec<u8>,
    net: &Netlist,
    report: &Report,
    asked: &PageOptions<'_>,
    figure: Figure<'_>,
    last: &[u8],
    flops: &[Signal<'_>],
    inputs: &[Signal<'_>],
) -> Result<(), NoMemory>
    requires few_flops { All (λ s. length s.places < 2 ^ 32) flops.now }
    requires few_inputs { All (λ s. length s.places < 2 ^ 32) inputs.now }
    ensures { OnOk result (text.new.items ≡ text.old.items ++ page_text (asked_in asked.now) net.now.raw report.now (figure_in figure.entry) last.now (map signal_in flops.now) (map signal_in inputs.now)) }
{
    push_front(
        text,
        net,
        report,
        asked.netlist,
        asked.signature,
        asked.report,
    )?;
    push_steps(text, report)?;
    push_piece(text, last)?;
    push_trace(text, report, asked.signature, figure, flops, inputs)?;
    Ok(())
}

/// The page with these signals and this last list.
fn text_of(
    alloc: Global,
    net: &Netlist,
    report: &Report,
    asked: &PageOptions<'_>,
    figure: Figure<'_>,
    last: &[u8],
    flops: &[Signal<'_>],
    inputs: &[Signal<'_>],
) -> Result<Vec<u8>, NoMemory>
    requires few_flops { All (λ s. length s.places < 2 ^ 32) flops.now }
    requires few_inputs { All (λ s. length s.places < 2 ^ 32) inputs.now }
    ensures { IfOk result (λ text. text.items ≡ page_text (asked_in asked.now) net.now.raw report.now (figure_in figure.entry) last.now (map signal_in flops.now) (map signal_in inputs.now)) }
{
    let mut text = Vec::new(alloc);
    push_page(&mut text, net, report, asked, figure, last, flops, inputs)?;
    Ok(text)
}

/// The page with these signals.
fn with_last(
    alloc: Global,
    net: &Netlist,
    report: &Report,
    asked: &PageOptions<'_>,
    figure: Figure<'_>,
    flops: &[Signal<'_>],
    inputs: &[Signal<'_>],
) -> Result<Vec<u8>, NoMemory>
    requires are_flops { AreDrawnFlops net.now.raw (asked_in asked.now) (figure_in figure) (map signal_in flops.now) }
    requires are_inputs { AreDrawnInputs net.now.raw (asked_in asked.now) (map signal_in inputs.now) }
    requires few_flops { All (λ s. length s.places < 2 ^ 32) flops.now }
    requires few_inputs { All (λ s. length s.places < 2 ^ 32) inputs.now }
    ensures { IfOk result (λ text. ShowsFigure net.now.raw report.now (asked_in asked.now) (figure_in figure.entry) text.items) }
{
    match last_text(alloc, net, report, asked, figure.signed) {
        Ok(last) => text_of(
            alloc,
            net,
            report,
            asked,
            figure,
            last.as_slice(),
            flops,
            inputs,
        ),
        Err(refused) => Err(refused),
    }
}

/// The page with these flip-flops.
fn with_inputs(
    alloc: Global,
    net: &Netlist,
    report: &Report,
    asked: &PageOptions<'_>,
    figure: Figure<'_>,
    flops: &[Signal<'_>],
) -> Result<Vec<u8>, NoMemory>
    requires are { AreDrawnFlops net.now.raw (asked_in asked.now) (figure_in figure) (map signal_in flops.now) }
    requires few { All (λ s. length s.places < 2 ^ 32) flops.now }
    ensures { IfOk result (λ text. ShowsFigure net.now.raw report.now (asked_in asked.now) (figure_in figure.entry) text.items) }
{
    match drawn_inputs(alloc, net, asked) {
        Ok(inputs) => with_last(alloc, net, report, asked, figure, flops, inputs.as_slice()),
        Err(refused) => Err(refused),
    }
}

/// The page with this figure of the states.
fn with_flops(
    alloc: Global,
    net: &Netlist,
    report: &Report,
    asked: &PageOptions<'_>,
    figure: Figure<'_>,
) -> Result<Vec<u8>, NoMemory>
    ensures { IfOk result (λ text. ShowsFigure net.now.raw report.now (asked_in asked.now) (figure_in figure.entry) text.items) }
{
    match drawn_flops(alloc, net, asked, figure) {
        Ok(flops) => with_inputs(alloc, net, report, asked, figure, flops.as_slice()),
        Err(refused) => Err(refused),
    }
}

/// The page, where other candidates differ here, and the signature reads these flip-flops.
fn with_figure(
    alloc: Global,
    net: &Netlist,
    report: &Report,
    asked: &PageOptions<'_>,
    opens: &List<Bits>,
    signed: &Bits,
) -> Result<Vec<u8>, NoMemory>
    ensures { IfOk result (λ text. ShowsFigure net.now.raw report.now (asked_in asked.now) (state_figure report.now opens.now signed.now) text.items) }
{
    let figure = Figure {
        moments: &report.states,
        opens,
        signed,
    };
    with_flops(alloc, net, report, asked, figure)
}

/// The page, where other candidates differ here.
#[tactic(auto, using(crate::proofs::PageLemmas::signed_there))]
fn with_signed(
    alloc: Global,
    net: &Netlist,
    report: &Report,
    asked: &PageOptions<'_>,
    opens: &List<Bits>,
) -> Result<Vec<u8>, NoMemory>
    ensures { IfOk result (λ text. ShowsFigure net.now.raw report.now (asked_in asked.now) (state_figure report.now opens.now (signed_of (asked_in asked.now).signature)) text.items) }
{
    match signed_of(alloc, asked.signature) {
        Ok(signed) => with_figure(alloc, net, report, asked, opens, &signed),
        Err(refused) => Err(refused),
    }
}

/// A report as one page of HTML, with the names of a netlist: why the backtrace stopped, a table of its steps, its last list, if that has no
/// hit, and its trace, where each signal has a cell for each run of cycles with one value, and a cell is marked in which other candidates
/// of its list differ. Of an execution that a search for a state found, what is known of it and the trace. Where a signature is given, the
/// names of signals are marked of which an item reads a flip-flop. Where names are given, these signals alone.
#[tactic(auto, using(crate::proofs::PageLemmas::opens_there))]
pub fn page_text(
    alloc: Global,
    net: &Netlist,
    report: &Report,
    asked: &PageOptions<'_>,
) -> Result<Vec<u8>, NoMemory>
    ensures { IfOk result (λ text. ShowsReport net.now.raw report.now (asked_in asked.now) text.items) }
{
    match opens_of(alloc, report) {
        Ok(opens) => with_signed(alloc, net, report, asked, &opens),
        Err(refused) => Err(refused),
    }
}
