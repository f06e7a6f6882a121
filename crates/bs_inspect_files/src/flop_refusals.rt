//! The words of a refusal line, for each fault of the readers (docs/FORMATS.md, "Words of `backspace_inspect`").
ghost use Rattle.std.specs.Prelude.{◌≡◌, IfOk};
ghost use Rattle.bs_inspect_netlist.specs.declared.fault.OrderFault.TheVariants.{NoMemory as OrderWant};
ghost use Rattle.bs_inspect_netlist.specs.declared.fault.PatternFault.TheVariants.{NoMemory as PatternWant};
ghost use Rattle.bs_outside.specs.declared.file_fetch.Refusal.TheVariants.{NoMemory as Want};
ghost use Rattle.bs_top_files.specs.Refusals.{HasWords};
ghost use Rattle.bs_inspect_files.specs.FlopWords.{order_words, pattern_words, unnamed_words};

use bs_bits::{NoMemory, push_piece};
use bs_inspect_netlist::{OrderFault, PatternFault};
use bs_inspect_values::{numbered, refusal};
use bs_net_names::push_quoted;
use bs_outside::Refusal;
use bs_top_files::worded;
use std::alloc::Global;

/// Why a text is no order of a scan chain.
pub fn order_refusal(alloc: Global, fault: OrderFault) -> Refusal
    ensures why { HasWords (order_words fault) result }
    ensures want { fault ≡ OrderWant → result ≡ Want }
{
    match fault {
        OrderFault::Line(line) => numbered(alloc, b"Line ", line),
        OrderFault::Unknown(line) => numbered(alloc, b"Unknown ", line),
        OrderFault::Twice(line) => numbered(alloc, b"Twice ", line),
        OrderFault::NoMemory => Refusal::NoMemory,
    }
}

/// Why a text is no pattern of a scan chain.
pub fn pattern_refusal(alloc: Global, fault: PatternFault) -> Refusal
    ensures why { HasWords (pattern_words fault) result }
    ensures want { fault ≡ PatternWant → result ≡ Want }
{
    match fault {
        PatternFault::Bits => worded(alloc, b"Bits"),
        PatternFault::Width(count) => numbered(alloc, b"Width ", count),
        PatternFault::NoMemory => Refusal::NoMemory,
    }
}

/// The words of a name that no net has.
fn quoted_words(alloc: Global, name: &[u8]) -> Result<Vec<u8>, NoMemory>
    ensures { IfOk result (λ why. why.items ≡ unnamed_words name.now) }
{
    let mut why = Vec::new(alloc);
    push_piece(&mut why, b"NoNet ")?;
    push_quoted(&mut why, name)?;
    Ok(why)
}

/// The refusal of a name that no net has.
pub fn unnamed_refusal(alloc: Global, name: &str) -> Refusal
    ensures { HasWords (unnamed_words name.now) result }
{
    refusal(quoted_words(alloc, name.as_bytes()))
}
