//! Outputs that take little at a time and fail for a reason, and readers and files that fail for one.
use crate::outside_rows::{are_mixed, mixed};
use bs_outside::{Fetch, FileShelf, NoMemory, Put, Shelf, Sink, StdSink, fetch_opened};
use std::alloc::Global;
use std::cell::RefCell;
use std::fmt::Display;
use std::io::{ErrorKind, Read};
use std::test::Fail;
use std::{fs, io};

/// An output that keeps what it takes, takes at most so many bytes at a time, and fails for a reason where it has taken `whole` of
/// them.
#[derive(Drop)]
struct Tape {
    taken: RefCell<Vec<u8>>,
    most: usize,
    whole: usize,
    kind: ErrorKind,
}

impl Print for Tape {
    fn print<D: Display + Drop>(&self, value: D) -> io::Result<()> {
        drop(value);
        Err(io::Error::from(ErrorKind::Unsupported))
    }

    fn println<D: Display + Drop>(&self, value: D) -> io::Result<()> {
        drop(value);
        Err(io::Error::from(ErrorKind::Unsupported))
    }

    fn write_all(&self, bytes: &[u8]) -> io::Result<()> {
        let _count = bytes.len();
        Err(io::Error::from(ErrorKind::Unsupported))
    }

    fn write_some(&self, bytes: &[u8]) -> io::Result<usize> {
        let Ok(mut taken) = self.taken.try_borrow_mut() else {
            return Err(io::Error::from(ErrorKind::ResourceBusy));
        };
        let may = self.most.min(self.whole.saturating_sub(taken.len()));
        let count = may.min(bytes.len());
        if count == 0 && !bytes.is_empty() {
            return Err(io::Error::from(self.kind));
        }
        taken.extend_from_slice(&bytes[..count])?;
        Ok(count)
    }
}

/// An output that has taken nothing.
fn empty_tape(alloc: Global, most: usize, whole: usize, kind: ErrorKind) -> Tape {
    Tape {
        taken: RefCell::new(Vec::new(alloc)),
        most,
        whole,
        kind,
    }
}

/// Whether an output has taken the first so many mixed bytes.
fn has_taken(tape: &Tape, count: usize) -> bool {
    match tape.taken.try_borrow() {
        Ok(taken) => are_mixed(&taken, count),
        Err(_) => false,
    }
}

/// How many bytes an output takes at a time and in all, the answers to lines of 12,000 and of 8,000 bytes, and the faults.
type Lines = (usize, usize, Put, Put);

/// Outputs of lines that are longer than a page.
static LINES: [Lines; 8] = [
    (usize::MAX, 20_000, Put::Done, Put::Done),
    (8_192, 20_000, Put::Done, Put::Done),
    (512, 20_000, Put::Done, Put::Done),
    (64, 20_000, Put::Done, Put::Done),
    (1, 20_000, Put::Done, Put::Done),
    (8_191, 19_999, Put::Done, Put::Failed(7_999)),
    (512, 12_000, Put::Done, Put::Failed(0)),
    (64, 11_999, Put::Failed(11_999), Put::Failed(0)),
];

/// Whether two lines go out to an output so far, for a reason where they do not go out whole.
fn go_out(alloc: Global, bytes: &[u8], (most, whole, first, second): &Lines) -> bool {
    let tape = empty_tape(alloc, *most, *whole, ErrorKind::StorageFull);
    let mut sink = StdSink::new(&tape);
    let one = sink.put(&bytes[..12_000.min(bytes.len())]) == *first;
    let none = sink.put("".as_bytes()) == Put::Done;
    let other = sink.put(&bytes[12_000.min(bytes.len())..]) == *second;
    let reason = sink.reason() == Some(ErrorKind::StorageFull) || *second == Put::Done;
    one && none && other && reason && has_taken(&tape, *whole)
}

/// Whether each of these outputs gets its lines.
fn all_go_out(alloc: Global, outputs: &[Lines]) -> Result<bool, NoMemory> {
    let bytes = mixed(alloc, 20_000)?;
    Ok(outputs.iter().all(|output| go_out(alloc, &bytes, output)))
}

#[test]
fn long_lines_go_out_whole(rt: HostRuntime) -> Result<(), Fail> {
    assert!(rt; all_go_out(rt.alloc(), &LINES)?);
    Ok(())
}

/// Reasons that a system has for a read or a write that fails.
static REASONS: [ErrorKind; 14] = [
    ErrorKind::NotFound,
    ErrorKind::PermissionDenied,
    ErrorKind::BrokenPipe,
    ErrorKind::ConnectionReset,
    ErrorKind::WouldBlock,
    ErrorKind::IsADirectory,
    ErrorKind::InvalidInput,
    ErrorKind::TimedOut,
    ErrorKind::StorageFull,
    ErrorKind::FileTooLarge,
    ErrorKind::Interrupted,
    ErrorKind::UnexpectedEof,
    ErrorKind::OutOfMemory,
    ErrorKind::Other,
];

/// Whether the reason of a write that fails is the one that the output gave, and none before.
fn has_reason(alloc: Global, kind: ErrorKind) -> bool {
    let tape = empty_tape(alloc, 2, 3, kind);
    let mut sink = StdSink::new(&tape);
    let before = sink.put("abc".as_bytes()) == Put::Done && sink.reason() == None;
    let after = sink.put("de".as_bytes()) == Put::Failed(0) && sink.reason() == Some(kind);
    before && after
}

/// A reader of so many bytes, one at a time, that then fails for a reason.
#[derive(Drop)]
struct Broken {
    left: usize,
    kind: ErrorKind,
}

impl Read for Broken {
    fn read(&mut self, buf: &mut [u8]) -> io::Result<usize> {
        if self.left == 0 {
            return Err(io::Error::from(self.kind));
        }
        if buf.is_empty() {
            return Ok(0);
        }
        self.left -= 1;
        buf[0] = b'a';
        Ok(1)
    }
}

/// Whether a read that fails ends a fetch, and is counted once.
fn is_broken(alloc: Global, left: usize, kind: ErrorKind) -> bool {
    let mut into = Vec::new(alloc);
    let mut counted = 0;
    let answer = fetch_opened(Ok(Broken { left, kind }), &mut counted, 10, &mut into);
    answer == Fetch::Failed && counted == 1 && into.len() == left
}

/// The same of a write, of a read at once and of one behind seven bytes.
fn is_reason(alloc: Global, kind: ErrorKind) -> bool {
    has_reason(alloc, kind) && is_broken(alloc, 0, kind) && is_broken(alloc, 7, kind)
}

#[test]
fn each_reason_is_the_systems(rt: HostRuntime) -> Result<(), Fail> {
    for &kind in &REASONS {
        assert!(rt; is_reason(rt.alloc(), kind), "{kind}");
    }
    Ok(())
}

/// Files that do not read, and why.
static UNREAD: [(&str, ErrorKind); 5] = [
    ("none.txt", ErrorKind::NotFound),
    (".", ErrorKind::IsADirectory),
    ("there.txt/a", ErrorKind::NotADirectory),
    ("", ErrorKind::NotFound),
    ("there\0.txt", ErrorKind::InvalidInput),
];

/// Whether a file does not read for this reason.
fn is_unread(
    alloc: Global,
    shelf: &mut FileShelf<'_, HostRuntime>,
    name: &str,
    kind: ErrorKind,
) -> bool {
    let mut into = Vec::new(alloc);
    shelf.fetch(name, 10, &mut into) == Fetch::Failed && shelf.reason() == Some(kind)
}

#[test]
fn files_that_do_not_read_have_the_systems_reason(rt: HostRuntime) -> Result<(), Fail> {
    fs::write(&rt, "there.txt", "hello")?;
    let mut shelf = FileShelf::new(&rt);
    assert!(rt; shelf.reason() == None);
    for (name, kind) in &UNREAD {
        assert!(rt; is_unread(rt.alloc(), &mut shelf, name, *kind), "{name}");
    }
    fs::remove_file(&rt, "there.txt")?;
    Ok(())
}
