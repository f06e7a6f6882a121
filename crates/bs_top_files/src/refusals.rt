//! The words of a refusal line, for each fault of a reader and of the check (docs/FORMATS.md, "Refusal lines").
ghost use Rattle.std.specs.Prelude.{◌≡◌, ◌<◌, ◌++◌, length, All, codes, decimal, IfOk, IfErr};
ghost use Rattle.std.specs.List.{flat_map};
ghost use Rattle.bs_net.specs.Netlist.{parts_of};
ghost use Rattle.bs_net.specs.Check.{IsFault};
ghost use Rattle.bs_net.specs.Loops.{gate_at};
ghost use Rattle.bs_net.specs.Netlist.{circuit};
ghost use Rattle.bs_net.specs.declared.fault.NetFault.TheVariants.{NoMemory as CheckWant};
ghost use Rattle.bs_verilog_syntax.specs.declared.fault.VerilogFault.TheVariants.{NoMemory as TextWant};
ghost use Rattle.bs_flat_meaning.specs.declared.fault.FlatFault.TheVariants.{NoMemory as FlatWant};
ghost use Rattle.bs_scan.specs.declared.fault.ChoiceFault.TheVariants.{NoMemory as ChoiceWant};
ghost use Rattle.bs_scan.specs.declared.fault.DumpFault.TheVariants.{NoMemory as DumpWant};
ghost use Rattle.bs_stim.specs.declared.fault.StimFault.TheVariants.{NoMemory as StimWant};
ghost use Rattle.bs_report.specs.declared.fault.ReportFault.TheVariants.{NoMemory as ReportWant};
ghost use Rattle.bs_outside.specs.declared.file_fetch.Refusal.TheVariants.{NoMemory as Want};
ghost use Rattle.bs_top_files.specs.Refusals.{HasCheckWords, HasWords, check_words, count_word, dump_words, flat_words, gate_piece, key_of, name_piece, netlist_text_words};
ghost use Rattle.bs_top_files.specs.Refusals.{partial_words, range_words, report_words, signature_words, stimulus_words, too_large_words, too_many_words, unsupported_words};

use bs_bits::{List, NoMemory, push_number, push_piece};
use bs_flat_meaning::FlatFault;
use bs_net::{Count, NetFault, NetId, Netlist, Raw};
use bs_outside::Refusal;
use bs_report::ReportFault;
use bs_scan::{ChoiceFault, DumpFault};
use bs_stim::StimFault;
use bs_verilog::{VerilogFault, What};
use std::alloc::Global;

// ---- words of one form

/// The refusal with these words; out of memory stays that.
fn refusal(words: Result<Vec<u8>, NoMemory>) -> Refusal
    ensures why { IfOk words (λ why. HasWords why.items result) }
    ensures want { IfErr words (λ _. result ≡ Want) }
{
    match words {
        Ok(why) => Refusal::Why(why),
        Err(_) => Refusal::NoMemory,
    }
}

/// The refusal of one word.
pub fn worded(alloc: Global, word: &[u8]) -> Refusal
    ensures { HasWords word.now result }
{
    match word.to_vec(alloc) {
        Ok(why) => Refusal::Why(why),
        Err(_) => Refusal::NoMemory,
    }
}

/// A word and a number.
fn number_words(alloc: Global, word: &[u8], number: u32) -> Result<Vec<u8>, NoMemory>
    ensures { IfOk result (λ why. why.items ≡ word.now ++ decimal number) }
{
    let mut why = Vec::new(alloc);
    push_piece(&mut why, word)?;
    push_number(&mut why, u64::from(number))?;
    Ok(why)
}

/// The refusal of a word and a number.
fn numbered(alloc: Global, word: &[u8], number: u32) -> Refusal
    ensures { HasWords (word.now ++ decimal number) result }
{
    refusal(number_words(alloc, word, number))
}

/// A word and a text behind it.
fn text_words(alloc: Global, word: &[u8], text: &[u8]) -> Result<Vec<u8>, NoMemory>
    ensures { IfOk result (λ why. why.items ≡ word.now ++ text.now) }
{
    let mut why = Vec::new(alloc);
    push_piece(&mut why, word)?;
    push_piece(&mut why, text)?;
    Ok(why)
}

/// The refusal of a word and a text behind it.
fn texted(alloc: Global, word: &[u8], text: &[u8]) -> Refusal
    ensures { HasWords (word.now ++ text.now) result }
{
    refusal(text_words(alloc, word, text))
}

/// The refusal of a word and the key of a net.
fn keyed(alloc: Global, word: &[u8], raw: &Raw, net: NetId) -> Refusal
    requires { net.0 < length raw.now.names }
    ensures { HasWords (word.now ++ key_of (parts_of raw.now) net) result }
{
    texted(alloc, word, key_of(raw, net).as_bytes())
}

/// The key of a net.
#[tactic(auto, using(crate::proofs::RefusalLemmas::key_is))]
fn key_of(raw: &Raw, net: NetId) -> &str
    requires { net.0 < length raw.now.names }
    ensures { result.now ≡ key_of (parts_of raw.now) net }
{
    raw.names.key(net)
}

// ---- the netlist

/// Why a text of one module is no netlist.
fn netlist_text_refusal(alloc: Global, fault: VerilogFault) -> Refusal
    ensures why { HasWords (netlist_text_words fault) result }
    ensures want { fault ≡ TextWant → result ≡ Want }
{
    match fault {
        VerilogFault::Syntax(at) => numbered(alloc, b"Syntax ", at),
        VerilogFault::Unsupported(at, what) => unsupported(alloc, at, what),
        VerilogFault::Port(at) => numbered(alloc, b"Port ", at),
        VerilogFault::Redeclared(at) => numbered(alloc, b"Redeclared ", at),
        VerilogFault::TooManyNets(at) => numbered(alloc, b"TooManyNets ", at),
        VerilogFault::Terminals(at) => numbered(alloc, b"Terminals ", at),
        VerilogFault::Index(at) => numbered(alloc, b"Index ", at),
        VerilogFault::NoMemory => Refusal::NoMemory,
    }
}

/// Names, each behind a space, behind a word.
fn name_words(alloc: Global, word: &[u8], names: &[List<u8>]) -> Result<Vec<u8>, NoMemory>
    ensures { IfOk result (λ why. why.items ≡ word.now ++ flat_map name_piece names.now) }
{
    let mut why = word.to_vec(alloc)?;
    'names: for name in names {
        push_piece(&mut why, b" ")?;
        push_piece(&mut why, name.slice())?;
    }
    Ok(why)
}

/// The refusal of names behind a word.
fn named(alloc: Global, word: &[u8], names: &[List<u8>]) -> Refusal
    ensures { HasWords (word.now ++ flat_map name_piece names.now) result }
{
    refusal(name_words(alloc, word, names))
}

/// Why a text of any number of modules is no netlist.
pub fn flat_refusal(alloc: Global, fault: &FlatFault) -> Refusal
    ensures why { HasWords (flat_words fault.now) result }
    ensures want { fault.now ≡ FlatWant → result ≡ Want }
{
    match fault {
        FlatFault::Verilog(fault) => netlist_text_refusal(alloc, *fault),
        FlatFault::Twice(at) => numbered(alloc, b"Twice ", *at),
        FlatFault::OwnNets(at) => numbered(alloc, b"OwnNets ", *at),
        FlatFault::Recursion(names) => named(alloc, b"Recursion", names.slice()),
        FlatFault::Tops(count) => numbered(alloc, b"Tops ", *count),
        FlatFault::Connect(at) => numbered(alloc, b"Connect ", *at),
        FlatFault::FlatDepth => worded(alloc, b"FlatDepth"),
        FlatFault::FlatParts => worded(alloc, b"FlatParts"),
        FlatFault::FlatNets => worded(alloc, b"FlatNets"),
        FlatFault::FlatKeys => worded(alloc, b"FlatKeys"),
        FlatFault::NameClash(key) => texted(alloc, b"NameClash ", key.slice()),
        FlatFault::FlatTerminals => worded(alloc, b"FlatTerminals"),
        FlatFault::NoMemory => Refusal::NoMemory,
    }
}

/// The place of what this reader leaves out, and the word for it.
fn unsupported_words(alloc: Global, at: u32, what: What) -> Result<Vec<u8>, NoMemory>
    ensures { IfOk result (λ why. why.items ≡ unsupported_words at what) }
{
    let mut why = number_words(alloc, b"Unsupported ", at)?;
    push_piece(&mut why, b" ")?;
    push_piece(&mut why, what.word().as_bytes())?;
    Ok(why)
}

/// The refusal of what this reader leaves out.
fn unsupported(alloc: Global, at: u32, what: What) -> Refusal
    ensures { HasWords (unsupported_words at what) result }
{
    refusal(unsupported_words(alloc, at, what))
}

/// Why the check refuses a netlist.
#[tactic(auto, using(crate::proofs::RefusalLemmas::check_diagnostic))]
pub fn check_refusal(alloc: Global, raw: &Raw, fault: &NetFault) -> Refusal
    requires is { IsFault (parts_of raw.now) fault.now }
    ensures { HasCheckWords (parts_of raw.now) result }
{
    fault_refusal(alloc, raw, fault)
}

/// The words of a fault of the check.
#[tactic(auto, using(crate::proofs::RefusalLemmas::mixed_named))]
fn fault_refusal(alloc: Global, raw: &Raw, fault: &NetFault) -> Refusal
    requires is { IsFault (parts_of raw.now) fault.now }
    ensures why { HasWords (check_words (parts_of raw.now) fault.now) result }
    ensures want { fault.now ≡ CheckWant → result ≡ Want }
{
    match fault {
        NetFault::TooMany(kind, count) => too_many(alloc, *kind, *count),
        NetFault::SecondDriver(net) => keyed(alloc, b"SecondDriver ", raw, *net),
        NetFault::Undriven(net) => keyed(alloc, b"Undriven ", raw, *net),
        NetFault::Loop(gates) => looped(alloc, raw, gates.slice()),
        NetFault::NoFlop => worded(alloc, b"NoFlop"),
        NetFault::ClockMixed(net) => keyed(alloc, b"ClockMixed ", raw, *net),
        NetFault::NoMemory => Refusal::NoMemory,
    }
}

/// The word for what there is too much of.
fn count_word(kind: Count) -> &'static str
    ensures { result.now ≡ count_word kind }
{
    match kind {
        Count::Flops => "Flops",
        Count::Inputs => "Inputs",
        Count::Terminals => "Terminals",
    }
}

/// What there is too much of, and how much.
fn too_many_words(alloc: Global, kind: Count, count: u32) -> Result<Vec<u8>, NoMemory>
    ensures { IfOk result (λ why. why.items ≡ too_many_words kind count) }
{
    let mut why = Vec::new(alloc);
    push_piece(&mut why, b"TooMany ")?;
    push_piece(&mut why, count_word(kind).as_bytes())?;
    push_piece(&mut why, b" ")?;
    push_number(&mut why, u64::from(count))?;
    Ok(why)
}

/// The refusal of too many of something.
fn too_many(alloc: Global, kind: Count, count: u32) -> Refusal
    ensures { HasWords (too_many_words kind count) result }
{
    refusal(too_many_words(alloc, kind, count))
}

/// The output net of a gate.
fn output_of(raw: &Raw, gate: u32) -> NetId
    requires gate { gate < length raw.now.gates }
    ensures net { result ≡ (gate_at raw.now.gates gate).out }
    ensures named { result.0 < length raw.now.names }
{
    raw.gates.get(gate as usize).out
}

/// The keys of the output nets of a loop of gates.
fn loop_words(alloc: Global, raw: &Raw, gates: &[u32]) -> Result<Vec<u8>, NoMemory>
    requires gates { All (λ gate. gate < length raw.now.gates) gates.now }
    ensures { IfOk result (λ why. why.items ≡ codes "Loop" ++ flat_map (gate_piece (parts_of raw.now)) gates.now) }
{
    let mut why = b"Loop".to_vec(alloc)?;
    'gates: for &gate in gates {
        push_piece(&mut why, b" ")?;
        push_piece(&mut why, key_of(raw, output_of(raw, gate)).as_bytes())?;
    }
    Ok(why)
}

/// The refusal of a loop.
fn looped(alloc: Global, raw: &Raw, gates: &[u32]) -> Refusal
    requires gates { All (λ gate. gate < length raw.now.gates) gates.now }
    ensures { HasWords (codes "Loop" ++ flat_map (gate_piece (parts_of raw.now)) gates.now) result }
{
    refusal(loop_words(alloc, raw, gates))
}

// ---- the other files

/// Why a signature is refused.
pub fn signature_refusal(alloc: Global, fault: ChoiceFault) -> Refusal
    ensures why { HasWords (signature_words fault) result }
    ensures want { fault ≡ ChoiceWant → result ≡ Want }
{
    match fault {
        ChoiceFault::Line(line) => numbered(alloc, b"Line ", line),
        ChoiceFault::TooMany(line) => numbered(alloc, b"TooMany ", line),
        ChoiceFault::UnknownFlop(line) => numbered(alloc, b"UnknownFlop ", line),
        ChoiceFault::NoMemory => Refusal::NoMemory,
    }
}

/// Why a stimulus is refused.
pub fn stimulus_refusal(alloc: Global, fault: StimFault) -> Refusal
    ensures why { HasWords (stimulus_words fault) result }
    ensures want { fault ≡ StimWant → result ≡ Want }
{
    match fault {
        StimFault::NoRun => worded(alloc, b"NoRun"),
        StimFault::Line(line) => numbered(alloc, b"Line ", line),
        StimFault::Width(line) => numbered(alloc, b"Width ", line),
        StimFault::Count(line) => numbered(alloc, b"Count ", line),
        StimFault::TooManyRuns(line) => numbered(alloc, b"TooManyRuns ", line),
        StimFault::TooManyCycles(line) => numbered(alloc, b"TooManyCycles ", line),
        StimFault::NoMemory => Refusal::NoMemory,
    }
}

/// Why a dump is refused.
pub fn dump_refusal(alloc: Global, fault: DumpFault) -> Refusal
    ensures why { HasWords (dump_words fault) result }
    ensures want { fault ≡ DumpWant → result ≡ Want }
{
    match fault {
        DumpFault::Line(line) => numbered(alloc, b"Line ", line),
        DumpFault::Width(line) => numbered(alloc, b"Width ", line),
        DumpFault::NotReset => worded(alloc, b"NotReset"),
        DumpFault::NoMemory => Refusal::NoMemory,
    }
}

/// Why a text is no report.
pub fn report_refusal(alloc: Global, fault: ReportFault) -> Refusal
    ensures why { HasWords (report_words fault) result }
    ensures want { fault ≡ ReportWant → result ≡ Want }
{
    match fault {
        ReportFault::Line(line) => refusal(line_words(alloc, line)),
        ReportFault::Short => worded(alloc, b"Short"),
        ReportFault::Extra => worded(alloc, b"Extra"),
        ReportFault::NoMemory => Refusal::NoMemory,
    }
}

/// The words of a refused line of a report.
fn line_words(alloc: Global, line: u64) -> Result<Vec<u8>, NoMemory>
    ensures { IfOk result (λ why. why.items ≡ codes "Line " ++ decimal line) }
{
    let mut why = Vec::new(alloc);
    push_piece(&mut why, b"Line ")?;
    push_number(&mut why, line)?;
    Ok(why)
}

/// The refusal of a moment that the runs do not have.
pub fn range_refusal(alloc: Global) -> Refusal
    ensures { HasWords range_words result }
{
    worded(alloc, b"Range")
}

/// The refusal of a report whose trace is a state that is known in part.
pub fn partial_refusal(alloc: Global) -> Refusal
    ensures { HasWords partial_words result }
{
    worded(alloc, b"Partial")
}

/// The refusal of a report whose trace has too large a waveform.
pub fn too_large_refusal(alloc: Global) -> Refusal
    ensures { HasWords too_large_words result }
{
    worded(alloc, b"TooLarge")
}
