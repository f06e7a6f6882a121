//! The names that the flip-flops have in a simulation.
ghost use Rattle.std.specs.Prelude.{◌≡◌, ◌<◌, ◌≤◌, ◌^◌, length, map, option_map, None, Some};
ghost use Rattle.bs_net.specs.Netlist.{circuit};
ghost use Rattle.bs_outside.specs.declared.limits.TheConstants.{MAX_MAP_BYTES};
ghost use Rattle.bs_outside.specs.Telling.{WalksDiagnosed};
ghost use Rattle.bs_top_files.specs.Causes.{CheckSays, NoteSays};
ghost use Rattle.bs_inspect_report.specs.Keys.{flop_keys};
ghost use Rattle.bs_inspect_files.specs.Checked.{all_of, beside_in, named_of, names_step};

use crate::comparing::{Beside, load_all};
use bs_bits::List;
use bs_inspect_check::Comparison;
use bs_inspect_names::slices_of;
use bs_inspect_notes::Subject;
use bs_inspect_values::{flop_bytes, names_or_diagnostic};
use bs_outside::{File, JobFault, Shelf, WalkStop, fetch_file, settle_diagnostic};
use std::alloc::Global;

/// All runs, where the names of the flip-flops are their keys.
#[tactic(auto, using(crate::proofs::NameLemmas::few_flops))]
fn load_keyed<S: Shelf>(
    alloc: Global,
    shelf: &mut S,
    beside: Beside<'_>,
    vcds: &[&str],
) -> Result<Vec<Comparison>, WalkStop>
    requires inputs { beside.runs.now.width ≡ length (circuit beside.net.now).inputs }
    requires there { length vcds.now ≤ length beside.runs.now.runs }
    ensures { WalksDiagnosed CheckSays NoteSays S.held S.faults S.leads shelf.old shelf.new
        (named_of (flop_keys beside.entry.net.now.raw) None (beside_in beside.entry) (map (λ s. s.now) vcds.now)) (λ ms. ms.items) result }
{
    let _raw = beside.net.raw();
    match flop_bytes(alloc, beside.net) {
        Ok(keys) => {
            let keys = keys.as_slice();
            load_all(alloc, shelf, keys, keys, beside, vcds)
        }
        Err(_) => Err(WalkStop::Plain(JobFault::NoMemory)),
    }
}

/// The same, by names that are lent.
fn load_spelled<S: Shelf>(
    alloc: Global,
    shelf: &mut S,
    keys: &[&[u8]],
    names: &List<List<u8>>,
    beside: Beside<'_>,
    vcds: &[&str],
) -> Result<Vec<Comparison>, WalkStop>
    requires inputs { beside.runs.now.width ≡ length (circuit beside.net.now).inputs }
    requires there { length vcds.now ≤ length beside.runs.now.runs }
    requires flops { length names.now < 2 ^ 32 }
    ensures { WalksDiagnosed CheckSays NoteSays S.held S.faults S.leads shelf.old shelf.new
        (all_of (map (λ k. k.now) keys.now) names.now (beside_in beside.entry) (map (λ s. s.now) vcds.now)) (λ ms. ms.items) result }
{
    match slices_of(alloc, names) {
        Ok(slices) => {
            let slices = slices.as_slice();
            load_all(alloc, shelf, keys, slices, beside, vcds)
        }
        Err(_) => Err(WalkStop::Plain(JobFault::NoMemory)),
    }
}

/// The same, by the names that a text gives.
fn load_by_names<S: Shelf>(
    alloc: Global,
    shelf: &mut S,
    path: &str,
    text: &[u8],
    keys: &[&[u8]],
    beside: Beside<'_>,
    vcds: &[&str],
) -> Result<Vec<Comparison>, WalkStop>
    requires short { length text.now ≤ MAX_MAP_BYTES }
    requires inputs { beside.runs.now.width ≡ length (circuit beside.net.now).inputs }
    requires there { length vcds.now ≤ length beside.runs.now.runs }
    requires flops { length keys.now < 2 ^ 32 }
    ensures { WalksDiagnosed CheckSays NoteSays S.held S.faults S.leads shelf.old shelf.new
        (names_step path.now (map (λ k. k.now) keys.now) text.now (beside_in beside.entry) (map (λ s. s.now) vcds.now)) (λ ms. ms.items) result }
{
    match names_or_diagnostic(alloc, Subject::Flops, path, text, keys) {
        Ok(names) => load_spelled(alloc, shelf, keys, &names, beside, vcds),
        Err(unread) => settle_diagnostic(File::Map, Err(unread)),
    }
}

/// The same, by the names that a text gives the flip-flops of the netlist.
#[tactic(auto, using(crate::proofs::NameLemmas::few_flops))]
fn load_renamed<S: Shelf>(
    alloc: Global,
    shelf: &mut S,
    path: &str,
    text: &[u8],
    beside: Beside<'_>,
    vcds: &[&str],
) -> Result<Vec<Comparison>, WalkStop>
    requires short { length text.now ≤ MAX_MAP_BYTES }
    requires inputs { beside.runs.now.width ≡ length (circuit beside.net.now).inputs }
    requires there { length vcds.now ≤ length beside.runs.now.runs }
    ensures { WalksDiagnosed CheckSays NoteSays S.held S.faults S.leads shelf.old shelf.new
        (names_step path.now (flop_keys beside.entry.net.now.raw) text.now (beside_in beside.entry) (map (λ s. s.now) vcds.now))
        (λ ms. ms.items) result }
{
    let _raw = beside.net.raw();
    match flop_bytes(alloc, beside.net) {
        Ok(keys) => {
            let keys = keys.as_slice();
            load_by_names(alloc, shelf, path, text, keys, beside, vcds)
        }
        Err(_) => Err(WalkStop::Plain(JobFault::NoMemory)),
    }
}

/// The same, by a file of names.
fn load_mapped<S: Shelf>(
    alloc: Global,
    shelf: &mut S,
    file: &str,
    beside: Beside<'_>,
    vcds: &[&str],
) -> Result<Vec<Comparison>, WalkStop>
    requires inputs { beside.runs.now.width ≡ length (circuit beside.net.now).inputs }
    requires there { length vcds.now ≤ length beside.runs.now.runs }
    ensures { WalksDiagnosed CheckSays NoteSays S.held S.faults S.leads shelf.old shelf.new
        (named_of (flop_keys beside.entry.net.now.raw) (Some file.now) (beside_in beside.entry) (map (λ s. s.now) vcds.now)) (λ ms. ms.items) result }
{
    let bytes = fetch_file(alloc, shelf, File::Map, file)?;
    load_renamed(alloc, shelf, file, &bytes, beside, vcds)
}

/// The same, by a file of names where there is one.
pub(crate) fn load_named<S: Shelf>(
    alloc: Global,
    shelf: &mut S,
    names: Option<&str>,
    beside: Beside<'_>,
    vcds: &[&str],
) -> Result<Vec<Comparison>, WalkStop>
    requires inputs { beside.runs.now.width ≡ length (circuit beside.net.now).inputs }
    requires there { length vcds.now ≤ length beside.runs.now.runs }
    ensures { WalksDiagnosed CheckSays NoteSays S.held S.faults S.leads shelf.old shelf.new
        (named_of (flop_keys beside.entry.net.now.raw) (option_map (λ s. s.now) names.entry) (beside_in beside.entry) (map (λ s. s.now) vcds.now))
        (λ ms. ms.items) result }
{
    match names {
        Some(file) => load_mapped(alloc, shelf, file, beside, vcds),
        None => load_keyed(alloc, shelf, beside, vcds),
    }
}
