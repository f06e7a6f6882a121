//! Shelves and sinks at work: in memory, on real files and standard output, and over readers and writers that give and take little at
//! a time and fail in the middle.
use bs_outside::{
    Fetch, FileShelf, MemShelf, MemSink, NoMemory, Put, Shelf, Sink, StdSink, SureShelf, SureSink,
    fetch_opened, write_whole,
};
use std::alloc::Global;
use std::io::{ErrorKind, Read, Write};
use std::os::fd::AsRawFd;
use std::test::Fail;
use std::{fs, io};

/// Puts a file behind others.
fn push_file(
    alloc: Global,
    files: &mut Vec<(String, Vec<u8>)>,
    name: &str,
    bytes: Vec<u8>,
) -> Result<(), NoMemory> {
    let name = String::from_str(alloc, name)?;
    Ok(files.push((name, bytes))?)
}

/// The names of the files in memory, and their texts: of two of one name the first one counts.
static FILES: [(&str, &str); 3] = [("a", "abc"), ("a", "x"), ("b", "")];

/// These files.
fn files(alloc: Global) -> Result<Vec<(String, Vec<u8>)>, NoMemory> {
    let mut files = Vec::new(alloc);
    for (name, text) in &FILES {
        let bytes = Vec::from_slice(alloc, text.as_bytes())?;
        push_file(alloc, &mut files, name, bytes)?;
    }
    Ok(files)
}

/// So many bytes, of which no two runs of 251 are alike in place.
pub fn mixed(alloc: Global, count: usize) -> Result<Vec<u8>, NoMemory> {
    let mut bytes = Vec::new(alloc);
    for place in 0..count {
        bytes.push((place % 251) as u8)?;
    }
    Ok(bytes)
}

/// Whether bytes are the first of these, this many of them.
pub fn are_mixed(bytes: &[u8], count: usize) -> bool {
    for (place, byte) in bytes.iter().enumerate() {
        if *byte != (place % 251) as u8 {
            return false;
        }
    }
    bytes.len() == count
}

/// A reader of bytes that gives at most so many of them at a time, and fails where it has given `whole` of them and more are
/// there.
#[derive(Drop)]
struct Slow<'a> {
    bytes: &'a [u8],
    at: usize,
    most: usize,
    whole: usize,
}

impl<'a> Read for Slow<'a> {
    fn read(&mut self, buf: &mut [u8]) -> io::Result<usize> {
        let left = self.bytes.len().saturating_sub(self.at);
        if left > 0 && self.at >= self.whole {
            return Err(io::Error::from(ErrorKind::Other));
        }
        let may = self.most.min(self.whole.saturating_sub(self.at));
        let count = left.min(may).min(buf.len());
        for place in 0..count {
            if let Some(byte) = self.bytes.get(self.at.saturating_add(place)) {
                buf[place] = *byte;
            }
        }
        self.at = self.at.saturating_add(count);
        Ok(count)
    }
}

/// A writer that takes at most so many bytes at a time, and fails where it has taken `whole` of them.
#[derive(Drop)]
struct Narrow {
    taken: Vec<u8>,
    most: usize,
    whole: usize,
}

impl Write for Narrow {
    fn write(&mut self, bytes: &[u8]) -> io::Result<usize> {
        let may = self.most.min(self.whole.saturating_sub(self.taken.len()));
        let count = may.min(bytes.len());
        if count == 0 && !bytes.is_empty() {
            return Err(io::Error::from(ErrorKind::Other));
        }
        self.taken.extend_from_slice(&bytes[..count])?;
        Ok(count)
    }

    fn flush(&mut self) -> io::Result<()> {
        Ok(())
    }
}

/// How many bytes a reader gives at a time and in all, how many there may be, the answer, how many come, and the faults that
/// are counted.
type Given = (usize, usize, u64, Fetch, usize, u64);

/// Readers of 20,000 bytes.
static READERS: [Given; 10] = [
    (1, 20_000, 20_000, Fetch::Done, 20_000, 0),
    (3, 20_000, u64::MAX, Fetch::Done, 20_000, 0),
    (8_191, 20_000, 20_000, Fetch::Done, 20_000, 0),
    (1, 20_000, 9_000, Fetch::TooLong, 9_001, 0),
    (3, 20_000, 9_000, Fetch::TooLong, 9_001, 0),
    (8_191, 20_000, 19_999, Fetch::TooLong, 20_000, 0),
    (1, 10_000, 20_000, Fetch::Failed, 10_000, 1),
    (3, 10_000, 20_000, Fetch::Failed, 10_000, 1),
    (8_191, 10_000, 20_000, Fetch::Failed, 10_000, 1),
    (8_191, 0, 20_000, Fetch::Failed, 0, 1),
];

/// Whether a reader of these bytes is answered so.
fn is_given(
    alloc: Global,
    bytes: &[u8],
    (most, whole, limit, want, count, faults): &Given,
) -> bool {
    let reader = Slow {
        bytes,
        at: 0,
        most: *most,
        whole: *whole,
    };
    let mut into = Vec::new(alloc);
    let mut counted = 0;
    let answer = fetch_opened(Ok(reader), &mut counted, *limit, &mut into);
    answer == *want && counted == *faults && are_mixed(&into, *count)
}

/// Whether each of these readers is answered so.
fn are_given(alloc: Global, readers: &[Given]) -> Result<bool, NoMemory> {
    let bytes = mixed(alloc, 20_000)?;
    Ok(readers.iter().all(|reader| is_given(alloc, &bytes, reader)))
}

/// Why a file cannot be opened, the answer, and the faults that are counted.
static UNOPENED: [(ErrorKind, Fetch, u64); 3] = [
    (ErrorKind::NotFound, Fetch::Failed, 1),
    (ErrorKind::PermissionDenied, Fetch::Failed, 1),
    (ErrorKind::OutOfMemory, Fetch::NoMemory, 0),
];

/// Whether a file that cannot be opened is answered so.
fn is_unopened(alloc: Global, (kind, want, faults): &(ErrorKind, Fetch, u64)) -> bool {
    let unopened: io::Result<Slow<'_>> = Err(io::Error::from(*kind));
    let mut into = Vec::new(alloc);
    let mut counted = 0;
    let answer = fetch_opened(unopened, &mut counted, 10, &mut into);
    answer == *want && counted == *faults && into.len() == 0
}

#[test]
fn readers_give_little_at_a_time_or_fail(rt: HostRuntime) -> Result<(), Fail> {
    assert!(rt; are_given(rt.alloc(), &READERS)?);
    for row in &UNOPENED {
        assert!(rt; is_unopened(rt.alloc(), row));
    }
    Ok(())
}

/// How many bytes a writer takes at a time and in all, the answer, and the faults that are counted.
type Taken = (usize, usize, Put, u64);

/// Writers of 20,000 bytes.
static WRITERS: [Taken; 7] = [
    (1, 20_000, Put::Done, 0),
    (3, 20_000, Put::Done, 0),
    (8_191, 20_000, Put::Done, 0),
    (1, 10_000, Put::Failed(10_000), 1),
    (3, 10_000, Put::Failed(10_000), 1),
    (8_191, 10_000, Put::Failed(10_000), 1),
    (8_191, 0, Put::Failed(0), 1),
];

/// Whether a writer of these bytes is answered so.
fn is_taken(alloc: Global, bytes: &[u8], (most, whole, want, faults): &Taken) -> bool {
    let mut writer = Narrow {
        taken: Vec::new(alloc),
        most: *most,
        whole: *whole,
    };
    let mut counted = 0;
    let answer = write_whole(&mut writer, &mut counted, bytes);
    answer == *want && counted == *faults && are_mixed(&writer.taken, *whole)
}

/// Whether each of these writers is answered so.
fn are_taken(alloc: Global, writers: &[Taken]) -> Result<bool, NoMemory> {
    let bytes = mixed(alloc, 20_000)?;
    Ok(writers.iter().all(|writer| is_taken(alloc, &bytes, writer)))
}

#[test]
fn writers_take_little_at_a_time_or_fail(rt: HostRuntime) -> Result<(), Fail> {
    assert!(rt; are_taken(rt.alloc(), &WRITERS)?);
    Ok(())
}

/// A file's name, how many bytes there may be, the answer, and how many come.
type Fetched<'a> = (&'a str, u64, Fetch, usize);

/// Files that are not what they seem are among them: an empty one, a folder, a name below a file, no name, a name that no file
/// can have, a file that may only be written, and a device without an end.
static REAL: [Fetched<'static>; 15] = [
    ("real.txt", 5, Fetch::Done, 5),
    ("real.txt", 4, Fetch::TooLong, 5),
    ("real.txt", 0, Fetch::TooLong, 1),
    ("none.txt", 4, Fetch::Failed, 0),
    (".", 4, Fetch::Failed, 0),
    ("empty.txt", 0, Fetch::Done, 0),
    ("folder", 4, Fetch::Failed, 0),
    ("real.txt/a", 4, Fetch::Failed, 0),
    ("", 4, Fetch::Failed, 0),
    ("real\0.txt", 4, Fetch::Failed, 0),
    ("/proc/self/clear_refs", 4, Fetch::Failed, 0),
    ("/dev/zero", 20_000, Fetch::TooLong, 20_001),
    ("long.txt", 19_999, Fetch::TooLong, 20_000),
    ("long.txt", 8_192, Fetch::TooLong, 8_193),
    ("long.txt", u64::MAX, Fetch::Done, 20_000),
];

/// Whether a fetch is answered so.
fn is_fetched<S: Shelf>(
    alloc: Global,
    shelf: &mut S,
    (name, limit, want, count): &Fetched<'_>,
) -> bool {
    let mut into = Vec::new(alloc);
    shelf.fetch(name, *limit, &mut into) == *want && into.len() == *count
}

/// Whether a file has so many mixed bytes.
fn is_mixed<S: Shelf>(alloc: Global, shelf: &mut S, name: &str, count: usize) -> bool {
    let mut into = Vec::new(alloc);
    shelf.fetch(name, count as u64, &mut into) == Fetch::Done && are_mixed(&into, count)
}

#[test]
fn real_files(rt: HostRuntime) -> Result<(), Fail> {
    let alloc = rt.alloc();
    fs::write(&rt, "long.txt", mixed(alloc, 20_000)?.as_slice())?;
    fs::write(&rt, "real.txt", "hello")?;
    fs::write(&rt, "empty.txt", "")?;
    fs::create_dir(&rt, "folder")?;
    let mut shelf = FileShelf::new(&rt);
    for row in &REAL {
        assert!(rt; is_fetched(alloc, &mut shelf, row), "{}", row.0);
    }
    assert!(rt; is_mixed(alloc, &mut shelf, "long.txt", 20_000));
    fs::remove_file(&rt, "real.txt")?;
    fs::remove_file(&rt, "long.txt")?;
    fs::remove_file(&rt, "empty.txt")?;
    fs::remove_dir(&rt, "folder")?;
    Ok(())
}

#[test]
fn standard_output(rt: HostRuntime) -> Result<(), Fail> {
    let mut sink = StdSink::new(&rt);
    assert_eq!(rt; sink.put("one line\n".as_bytes()), Put::Done);
    assert_eq!(rt; sink.put("".as_bytes()), Put::Done);
    assert_eq!(rt; SureSink::new().put("none".as_bytes()), Put::Done);
    Ok(())
}

/// A pipe is read like a file: what was written to it, up to its end.
#[test]
fn pipes(rt: HostRuntime) -> Result<(), Fail> {
    let alloc = rt.alloc();
    let (reader, mut writer) = io::pipe(&rt)?;
    writer.write_all("hello".as_bytes())?;
    drop(writer);
    let name = format!(in alloc; "/proc/self/fd/{}", reader.as_raw_fd())?;
    let mut into = Vec::new(alloc);
    assert_eq!(rt;
        FileShelf::new(&rt).fetch(name.as_str(), 5, &mut into),
        Fetch::Done
    );
    assert_eq!(rt; into.as_slice(), "hello".as_bytes());
    Ok(())
}

/// A file's name, how many bytes there may be, the answer of a shelf whose second fetch fails, and that of a sure one.
type Stored<'a> = (&'a str, u64, Fetch, Fetch);

/// Fetches from shelves in memory.
static STORED: [Stored<'static>; 5] = [
    ("a", 3, Fetch::Done, Fetch::Done),
    ("a", 3, Fetch::Failed, Fetch::Done),
    ("a", 2, Fetch::TooLong, Fetch::TooLong),
    ("b", 0, Fetch::Done, Fetch::Done),
    ("c", 3, Fetch::Failed, Fetch::Failed),
];

/// Whether the fetches from two shelves are answered so, all into one text.
fn are_stored(shelf: &mut MemShelf, sure: &mut SureShelf, into: &mut Vec<u8>) -> bool {
    for (name, limit, want, want_sure) in &STORED {
        if shelf.fetch(name, *limit, into) != *want {
            return false;
        }
        if sure.fetch(name, *limit, into) != *want_sure {
            return false;
        }
    }
    true
}

/// The same from a shelf in memory and a sure one, and the text.
fn is_stored(
    alloc: Global,
    shelf: &mut MemShelf,
    files: Vec<(String, Vec<u8>)>,
    want: &str,
) -> bool {
    let mut sure = SureShelf::new(files);
    let mut into = Vec::new(alloc);
    are_stored(shelf, &mut sure, &mut into) && into.as_slice() == want.as_bytes()
}

/// A shelf in memory whose second fetch fails.
fn shelf(alloc: Global) -> Result<MemShelf, NoMemory> {
    let files = files(alloc)?;
    MemShelf::new(alloc, files, vec![in alloc; 2]?)
}

/// Whether shelves in memory answer so.
fn are_shelves(alloc: Global, want: &str) -> Result<bool, NoMemory> {
    let mut shelf = shelf(alloc)?;
    match files(alloc) {
        Ok(files) => Ok(is_stored(alloc, &mut shelf, files, want)),
        Err(fault) => Err(fault),
    }
}

/// What is put, and the answers of a sink of six bytes whose second put fails after one.
static PUTS: [(&str, Put); 5] = [
    ("one", Put::Done),
    ("two", Put::Failed(1)),
    ("", Put::Done),
    ("three", Put::Failed(2)),
    ("four", Put::Failed(0)),
];

/// Whether puts are answered so, and leave a text.
fn are_put(mut sink: MemSink, want: &str) -> bool {
    for (bytes, answer) in &PUTS {
        if sink.put(bytes.as_bytes()) != *answer {
            return false;
        }
    }
    sink.bytes() == want.as_bytes()
}

/// The same of a sink of six bytes.
fn is_sink(alloc: Global, want: &str) -> Result<bool, NoMemory> {
    match MemSink::new(alloc, 6, vec![in alloc; (2, 1)]?) {
        Ok(sink) => Ok(are_put(sink, want)),
        Err(fault) => Err(fault),
    }
}

#[test]
fn shelves_and_a_sink_in_memory(rt: HostRuntime) -> Result<(), Fail> {
    assert!(rt; are_shelves(rt.alloc(), "abcabcabcabcabc")?);
    assert!(rt; is_sink(rt.alloc(), "onetth")?);
    Ok(())
}
