//! A moment in words, with the signatures of its dump.
ghost use Rattle.std.specs.Prelude.{◌≡◌, ◌++◌, codes, IfOk, OnOk};
ghost use Rattle.bs_scan.specs.DumpText.{signature_text};
ghost use Rattle.bs_scan.specs.Moments.{moment};
ghost use Rattle.bs_call.specs.Looks.{behind_text, held_text, moment_text, place_text};

use bs_bits::{Bits, NoMemory, push_number, push_piece};
use bs_chip::Hit;
use bs_scan::Dump;
use std::alloc::Global;

/// Appends a signature, or `none`.
fn push_signature(said: &mut Vec<u8>, signature: &Option<Bits>) -> Result<(), NoMemory>
    ensures { OnOk result (said.new.items ≡ said.old.items ++ signature_text signature.now) }
{
    match signature {
        Some(bits) => bits.text(said),
        None => push_piece(said, b"none"),
    }
}

/// Ends a quoted signature, and appends the older one where two are kept.
fn push_behind(said: &mut Vec<u8>, there: &Dump) -> Result<(), NoMemory>
    ensures { OnOk result (said.new.items ≡ said.old.items ++ behind_text there.now) }
{
    if there.depth != 2 {
        return push_piece(said, b"`");
    }
    push_piece(said, b"` and `old ")?;
    push_signature(said, &there.older)?;
    push_piece(said, b"`")
}

/// Appends a moment in words.
fn push_moment(said: &mut Vec<u8>, run: u32, cycle: u32) -> Result<(), NoMemory>
    ensures { OnOk result (said.new.items ≡ said.old.items ++ moment_text (moment run cycle)) }
{
    push_piece(said, b"the dump's state is that of run ")?;
    push_number(said, u64::from(run))?;
    push_piece(said, b" at cycle ")?;
    push_number(said, u64::from(cycle))
}

/// Appends the signatures of a moment's dump.
fn push_held(said: &mut Vec<u8>, there: &Dump) -> Result<(), NoMemory>
    ensures { OnOk result (said.new.items ≡ said.old.items ++ held_text there.now) }
{
    push_piece(said, b", whose dump has `sig ")?;
    push_signature(said, &there.stored)?;
    push_behind(said, there)
}

/// Appends a moment in words, with the signatures of its dump.
fn push_place(said: &mut Vec<u8>, hit: &Hit) -> Result<(), NoMemory>
    ensures { OnOk result (said.new.items ≡ said.old.items ++ place_text (moment hit.now.run hit.now.cycle) hit.now.dump) }
{
    push_moment(said, hit.run, hit.cycle)?;
    push_held(said, &hit.dump)
}

/// The same behind a few words, as a text of its own.
pub fn place_said(alloc: Global, front: &str, hit: &Hit) -> Result<Vec<u8>, NoMemory>
    ensures { IfOk result (λ said. said.items ≡ front.now ++ place_text (moment hit.now.run hit.now.cycle) hit.now.dump) }
{
    let mut said = front.as_bytes().to_vec(alloc)?;
    push_place(&mut said, hit)?;
    Ok(said)
}
