//! What the front says of a signature.
ghost use Rattle.std.specs.Prelude.{◌≡◌, ◌++◌, option_map, OnOk};
ghost use Rattle.bs_inspect_html.specs.Signed.{file_in, items_line, items_text, job_files, named_files, styles_text};

use crate::numbers::push_between;
use crate::paths::push_path_before;
use crate::style::{push_marks_style, push_style};
use bs_bits::{NoMemory, push_piece};
use bs_scan::Choice;

/// A signature: the name of its file, and what it is taken of.
#[derive(Clone, Copy)]
pub struct SignatureFile<'a> {
    pub name: &'a str,
    pub choice: &'a Choice,
}

/// Appends the style, with that of marks where there is a signature.
pub(crate) fn push_styles(
    text: &mut Vec<u8>,
    signature: Option<SignatureFile<'_>>,
) -> Result<(), NoMemory>
    ensures { OnOk result (text.new.items ≡ text.old.items ++ styles_text (option_map file_in signature.entry)) }
{
    match signature {
        Some(_file) => push_marks_style(text),
        None => push_style(text),
    }
}

/// Appends how many items a signature has.
#[tactic(auto, unfolding(crate::specs::Signed::items_text))]
fn push_items(text: &mut Vec<u8>, choice: &Choice) -> Result<(), NoMemory>
    ensures { OnOk result (text.new.items ≡ text.old.items ++ items_text choice.now) }
{
    push_between(
        text,
        b"<li>items of the signature: ",
        choice.items() as u64,
        b"</li>\n",
    )
}

/// The same of a signature that may be given.
pub(crate) fn push_items_line(
    text: &mut Vec<u8>,
    signature: Option<SignatureFile<'_>>,
) -> Result<(), NoMemory>
    ensures { OnOk result (text.new.items ≡ text.old.items ++ items_line (option_map file_in signature.entry)) }
{
    match signature {
        Some(file) => push_items(text, file.choice),
        None => Ok(()),
    }
}

/// Appends the files of a job behind its netlist, with the name of the signature's.
#[tactic(auto, unfolding(crate::specs::Signed::named_files))]
fn push_named_files(text: &mut Vec<u8>, name: &str) -> Result<(), NoMemory>
    ensures { OnOk result (text.new.items ≡ text.old.items ++ named_files name.now) }
{
    push_piece(text, b" ")?;
    push_path_before(text, name, b" STIMULUS DUMP ")
}

/// Appends the files of a job behind its netlist.
pub(crate) fn push_job_files(
    text: &mut Vec<u8>,
    signature: Option<SignatureFile<'_>>,
) -> Result<(), NoMemory>
    ensures { OnOk result (text.new.items ≡ text.old.items ++ job_files (option_map file_in signature.entry)) }
{
    match signature {
        Some(file) => push_named_files(text, file.name),
        None => push_piece(text, b" SIGNATURE STIMULUS DUMP "),
    }
}
