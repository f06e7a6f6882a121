//! Calls on files in memory, each of which is given once. Each value that is made has a function of its own, which lends it to the
//! next one.

use bs_call::answer_words;
use bs_outside::{MemSink, NoMemory, OnceShelf};
use bs_top::{Backspace, Status};
use std::alloc::Global;

/// How an output fails: the number of the put that fails, after how many bytes it does, and the room. The number 0 is that of no put.
pub type Fails = ((u64, usize), usize);

/// It does not fail.
pub const SOUND: Fails = ((0, 0), 65536);

/// The texts of the files `n`, `s`, `t`, `d` and `r`: netlist, signature, stimulus, dump and report.
pub type Texts<'a> = [&'a str; 5];

/// The answer to a call: its status, what is written, and the note.
#[derive(Drop)]
pub struct Answer {
    pub status: Status,
    pub out: Vec<u8>,
    pub note: Vec<u8>,
}

/// The call.
fn call(
    alloc: Global,
    words: &[String],
    shelf: &mut OnceShelf,
    out: &mut MemSink,
    notes: &mut MemSink,
) -> Result<Status, NoMemory> {
    answer_words(&Backspace, alloc, words, shelf, out, notes)
}

/// An answer of these bytes.
fn answer_with(alloc: Global, status: Status, out: &[u8], note: &[u8]) -> Result<Answer, NoMemory> {
    let out = Vec::from_slice(alloc, out)?;
    let note = Vec::from_slice(alloc, note)?;
    Ok(Answer { status, out, note })
}

/// The answer to a call with these sinks.
fn answer_on(
    alloc: Global,
    words: &[String],
    shelf: &mut OnceShelf,
    out: &mut MemSink,
    notes: &mut MemSink,
) -> Result<Answer, NoMemory> {
    match call(alloc, words, shelf, out, notes) {
        Ok(status) => answer_with(alloc, status, out.bytes(), notes.bytes()),
        Err(fault) => Err(fault),
    }
}

/// The same with an output of which one put fails.
fn answer_within(
    alloc: Global,
    words: &[String],
    shelf: &mut OnceShelf,
    out: &mut MemSink,
) -> Result<Answer, NoMemory> {
    match MemSink::new(alloc, 1000, Vec::new(alloc)) {
        Ok(mut notes) => answer_on(alloc, words, shelf, out, &mut notes),
        Err(fault) => Err(fault),
    }
}

/// An output with a room, of which one put fails.
fn output(alloc: Global, put: (u64, usize), room: usize) -> Result<MemSink, NoMemory> {
    MemSink::new(alloc, room, vec![in alloc; put]?)
}

/// The same with a room.
fn answer_of(
    alloc: Global,
    words: &[String],
    shelf: &mut OnceShelf,
    fails: Fails,
) -> Result<Answer, NoMemory> {
    match output(alloc, fails.0, fails.1) {
        Ok(mut out) => answer_within(alloc, words, shelf, &mut out),
        Err(fault) => Err(fault),
    }
}

/// The names of the files.
static NAMES: [&str; 5] = ["n", "s", "t", "d", "r"];

/// Puts a file behind others.
fn push_file(
    alloc: Global,
    files: &mut Vec<(String, Vec<u8>)>,
    name: &str,
    text: &str,
) -> Result<(), NoMemory> {
    let bytes = Vec::from_slice(alloc, text.as_bytes())?;
    let name = String::from_str(alloc, name)?;
    Ok(files.push((name, bytes))?)
}

/// The five files.
fn files(alloc: Global, texts: &Texts<'_>) -> Result<Vec<(String, Vec<u8>)>, NoMemory> {
    let mut files = Vec::new(alloc);
    for (name, text) in NAMES.iter().zip(texts) {
        push_file(alloc, &mut files, name, text)?;
    }
    Ok(files)
}

/// The answer to words on files.
fn answer_once(
    alloc: Global,
    words: &[String],
    files: Vec<(String, Vec<u8>)>,
    fails: Fails,
) -> Result<Answer, NoMemory> {
    let mut shelf = OnceShelf::new(files);
    answer_of(alloc, words, &mut shelf, fails)
}

/// The same on files of these texts.
fn answer_over(
    alloc: Global,
    words: &[String],
    texts: &Texts<'_>,
    fails: Fails,
) -> Result<Answer, NoMemory> {
    match files(alloc, texts) {
        Ok(files) => answer_once(alloc, words, files, fails),
        Err(fault) => Err(fault),
    }
}

/// The words of a line.
fn words_of(alloc: Global, line: &str) -> Result<Vec<String>, NoMemory> {
    let mut words = Vec::new(alloc);
    for word in line.split(' ') {
        let word = String::from_str(alloc, word)?;
        words.push(word)?;
    }
    Ok(words)
}

/// The answer to the words of a line on these files.
pub fn called(
    alloc: Global,
    line: &str,
    texts: &Texts<'_>,
    fails: Fails,
) -> Result<Answer, NoMemory> {
    match words_of(alloc, line) {
        Ok(words) => answer_over(alloc, &words, texts, fails),
        Err(fault) => Err(fault),
    }
}
