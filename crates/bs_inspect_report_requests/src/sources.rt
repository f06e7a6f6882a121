//! The names of the files of a request, for the notes on them.
ghost use Rattle.std.specs.Prelude.{◌≡◌};
ghost use Rattle.bs_inspect_words.specs.Asked.{bench_in, evidence_in, lengths_in, page_in};
ghost use Rattle.bs_inspect_plans.specs.Sources.{bench_sources, evidence_sources, lengths_sources, page_sources, report_source, sources_in, trace_sources};

use bs_inspect_plans::{Sources, or_none};
use bs_inspect_words::{BenchRequest, EvidenceRequest, LengthsRequest, PageRequest};

/// A report alone.
pub fn report_source<'a>(report: &'a str) -> Sources<'a>
    ensures { sources_in result ≡ report_source report.now }
{
    Sources {
        netlist: "",
        signature: "",
        stimulus: "",
        dump: "",
        report,
        vcd: "",
        map: "",
    }
}

/// A netlist and a report.
pub fn trace_sources<'a>(netlist: &'a str, report: &'a str) -> Sources<'a>
    ensures { sources_in result ≡ trace_sources netlist.now report.now }
{
    Sources {
        netlist,
        signature: "",
        stimulus: "",
        dump: "",
        report,
        vcd: "",
        map: "",
    }
}

/// A netlist, a signature and a report.
pub fn evidence_sources<'a>(asked: &EvidenceRequest<'a>) -> Sources<'a>
    ensures { sources_in result ≡ evidence_sources (evidence_in asked.now) }
{
    Sources {
        netlist: asked.netlist,
        signature: asked.signature,
        stimulus: "",
        dump: "",
        report: asked.report,
        vcd: "",
        map: "",
    }
}

/// A netlist and an answer, which counts as a report.
pub fn lengths_sources<'a>(asked: &LengthsRequest<'a>) -> Sources<'a>
    ensures { sources_in result ≡ lengths_sources (lengths_in asked.now) }
{
    trace_sources(asked.netlist, asked.answer)
}

/// A netlist and a report, and a signature where there is a file of one.
pub fn page_sources<'a>(asked: &PageRequest<'a>) -> Sources<'a>
    ensures { sources_in result ≡ page_sources (page_in asked.now) }
{
    Sources {
        netlist: asked.netlist,
        signature: or_none(asked.signature),
        stimulus: "",
        dump: "",
        report: asked.report,
        vcd: "",
        map: "",
    }
}

/// A netlist, recorded runs and a report.
pub fn bench_sources<'a>(asked: &BenchRequest<'a>) -> Sources<'a>
    ensures { sources_in result ≡ bench_sources (bench_in asked.now) }
{
    Sources {
        netlist: asked.netlist,
        signature: "",
        stimulus: asked.runs,
        dump: "",
        report: asked.report,
        vcd: "",
        map: "",
    }
}
