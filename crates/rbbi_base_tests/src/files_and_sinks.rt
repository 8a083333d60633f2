//! Each public call once, calls that fail in mid-stream, and the system's files and writers.
ghost use Rattle.std.specs.Prelude.{◌≤◌, IfOk};

use crate::texts::is_raw;
use rbbi_io::{
    CalmFiles, CalmSink, Files, MemFiles, MemSink, ReadErr, RealFiles, RealSink, Sink, WriteErr,
    put_all, put_when_full, read_at_most,
};
use rbbi_text::Raw;
use std::alloc::{AllocError, Global};
use std::fs::File;
use std::io;
use std::io::{ErrorKind, Read, Write};

/// Whether a write was taken, where the name is `Ok`, or refused by this name.
fn is_written(answer: &Result<(), WriteErr>, name: &str) -> bool {
    match answer {
        Ok(()) => name == "Ok",
        Err(refusal) => refusal.label() == name && refusal.place().is_none(),
    }
}

/// Whether a read gave these bytes, or was refused by this name.
fn is_read(host: &HostRuntime, answer: &Result<Raw, ReadErr>, wanted: &str) -> bool {
    match answer {
        Ok(raw) => is_raw(host, raw, wanted.as_bytes()),
        Err(refusal) => refusal.label() == wanted && refusal.place().is_none(),
    }
}

/// A name, the most bytes that are read, and the bytes or the refusal.
type Reading = (&'static str, u64, &'static str);

/// Whether each read gives what it must.
fn are_read<F: Files>(host: &HostRuntime, files: &mut F, rows: &[Reading]) -> bool {
    for row in rows {
        if !is_read(host, &files.read(host.alloc(), row.0, row.1), row.2) {
            return false;
        }
    }
    true
}

/// Files that are added, then files that are written.
const ADDED: [(&str, &str); 3] = [("a", "one"), ("b", ""), ("a", "three")];

const WRITTEN: [(&str, &str); 2] = [("c", "two"), ("b", "four")];

const FILES_IN_MEMORY: [Reading; 5] = [
    ("a", 5, "three"),
    ("b", 4, "four"),
    ("c", 3, "two"),
    ("a", 4, "TooLong"),
    ("d", 4, "Failed"),
];

#[test]
fn files_in_memory(rt: HostRuntime) {
    let mut files = MemFiles::new(rt.alloc());
    for row in &ADDED {
        files.add(row.0, row.1.as_bytes()).expect(&rt, row.0);
    }
    for row in &WRITTEN {
        files.write(row.0, row.1.as_bytes()).expect(&rt, row.0);
    }
    assert!(rt; are_read(&rt, &mut files, &FILES_IN_MEMORY));
    assert!(rt; files.get("d").is_none() && files.calls() == 7);
}

const READS_OF_WHICH_ONE_FAILS: [Reading; 3] = [
    ("a", 9, "one"),
    ("a", 9, "Failed"),
    ("a", 9, "one"),
];

/// A name, the answer when `two` is written, and what the file has then.
const WRITES_OF_WHICH_ONE_FAILS: [(&str, &str, &str); 2] = [
    ("a", "Failed", "one"),
    ("b", "Ok", "two"),
];

#[test]
fn calls_that_fail(rt: HostRuntime) {
    let mut files = MemFiles::new(rt.alloc());
    files.add("a", b"one").expect(&rt, "a file");
    files.fail_at(2).expect(&rt, "a fault");
    files.fail_at(4).expect(&rt, "a fault");
    assert!(rt; are_read(&rt, &mut files, &READS_OF_WHICH_ONE_FAILS));
    for row in &WRITES_OF_WHICH_ONE_FAILS {
        assert!(rt; is_written(&files.write(row.0, b"two"), row.1));
        assert!(rt; files.get(row.0) == Some(row.2.as_bytes()));
    }
    assert!(rt; files.calls() == 5);
}

const FILES_THAT_NEVER_FAIL: [Reading; 4] = [
    ("a", 3, "one"),
    ("b", 3, "two"),
    ("c", 0, ""),
    ("a", 2, "TooLong"),
];

#[test]
fn files_that_never_fail(rt: HostRuntime) {
    let mut files = CalmFiles::new(rt.alloc());
    files.add("a", b"one").expect(&rt, "a file");
    files.write("b", b"two").expect(&rt, "a file");
    assert!(rt; are_read(&rt, &mut files, &FILES_THAT_NEVER_FAIL));
    assert!(rt; files.get("b") == Some(b"two".as_slice()) && files.calls() == 5);
}

#[test]
fn puts_that_never_fail(rt: HostRuntime) {
    let mut sink = CalmSink::new(rt.alloc());
    put_all(&mut sink, b"ab").expect(&rt, "a put");
    put_all(&mut sink, b"cd").expect(&rt, "a put");
    assert!(rt; sink.taken() == b"abcd".as_slice() && sink.calls() == 2);
}

/// How many bytes are made, how many a put takes, the answer, and how many puts and bytes there
/// were.
const OUTPUTS: [(usize, usize, &str, u64, usize); 5] = [
    (65_535, 70_000, "Ok", 0, 0),
    (65_536, 70_000, "Ok", 1, 65_536),
    (65_535, 70_000, "Ok", 1, 65_536),
    (65_537, 65_000, "Ok", 3, 131_073),
    (70_000, 65_000, "Failed", 4, 131_073),
];

/// What waits is written once it is 65,536 bytes, and nothing is put after a put that is refused.
#[test]
fn output_in_pieces(rt: HostRuntime) {
    let mut sink = MemSink::new(rt.alloc());
    sink.fail_at(4).expect(&rt, "a fault");
    let mut made = Vec::new(rt.alloc());
    for row in &OUTPUTS {
        let (count, most, name, calls, taken) = *row;
        assert!(rt; most >= 1);
        sink.at_most(most);
        made.resize(count, b'x').expect(&rt, "bytes");
        assert!(rt; is_written(&put_when_full(&mut sink, &mut made), name));
        assert!(rt;
            sink.calls() == calls && sink.taken().len() == taken,
            "of {count}"
        );
    }
}

const PUTS: [(&str, &str); 4] = [("ab", "Ok"), ("cd", "Failed"), ("", "Ok"), ("ef", "Ok")];

#[test]
fn puts_that_fail(rt: HostRuntime) {
    let mut sink = MemSink::new(rt.alloc());
    sink.fail_at(2).expect(&rt, "a fault");
    for row in &PUTS {
        assert!(rt; is_written(&put_all(&mut sink, row.0.as_bytes()), row.1));
    }
    assert!(rt; sink.taken() == b"abef".as_slice() && sink.calls() == 3);
}

/// A writer and reader that gives these answers in turn, from the last: so many bytes, or the
/// fault. It keeps what it takes, and gives the byte `x`.
#[derive(Drop)]
struct Told {
    answers: Vec<Option<usize>>,
    fault: ErrorKind,
    taken: Vec<u8>,
}

impl Told {
    /// With these answers.
    fn new(alloc: Global, answers: &[Option<usize>], fault: ErrorKind) -> Result<Told, AllocError> {
        Ok(Told {
            answers: answers.to_vec(alloc)?,
            fault,
            taken: Vec::new(alloc),
        })
    }

    /// The next answer, of at most so many bytes.
    fn answer(&mut self, most: usize) -> io::Result<usize>
        ensures { IfOk result (λ count. count ≤ most) }
    {
        match self.answers.pop() {
            Some(Some(count)) => Ok(count.min(most)),
            Some(None) => Err(io::Error::from(self.fault)),
            None => Ok(0),
        }
    }
}

impl Read for Told {
    fn read(&mut self, buf: &mut [u8]) -> io::Result<usize> {
        let count = self.answer(buf.len())?;
        buf[..count].fill(b'x');
        Ok(count)
    }
}

impl Write for Told {
    fn write(&mut self, buf: &[u8]) -> io::Result<usize> {
        let count = self.answer(buf.len())?;
        self.taken.extend_from_slice(&buf[..count])?;
        Ok(count)
    }

    fn flush(&mut self) -> io::Result<()> {
        Ok(())
    }
}

const WRITERS_AS_SINKS: [(&[Option<usize>], ErrorKind, &str, &[u8]); 4] = [
    (
        &[Some(9), Some(1), Some(3)],
        ErrorKind::Other,
        "Ok",
        b"abcdef",
    ),
    (
        &[Some(9), None, Some(1)],
        ErrorKind::Interrupted,
        "Ok",
        b"abcdef",
    ),
    (&[Some(2), Some(1)], ErrorKind::Other, "Failed", b"abc"),
    (&[None, Some(1)], ErrorKind::OutOfMemory, "Memory", b"a"),
];

/// In pieces to the end; an interrupted write is tried again; one that takes nothing is a fault,
/// and so is one that fails, but not one that has no memory.
#[test]
fn writers_as_sinks(rt: HostRuntime) {
    for row in &WRITERS_AS_SINKS {
        let (answers, fault, name, taken) = *row;
        let mut writer = Told::new(rt.alloc(), answers, fault).expect(&rt, "a writer");
        let answer = put_all(&mut RealSink::new(&mut writer), b"abcdef");
        assert!(rt; is_written(&answer, name) && writer.taken.as_slice() == taken);
    }
}

/// An empty piece asks nothing of the writer.
#[test]
fn empty_pieces(rt: HostRuntime) {
    let writer = Told::new(rt.alloc(), &[None], ErrorKind::Other).expect(&rt, "a writer");
    let mut sink = RealSink::new(writer);
    assert!(rt; matches!(sink.put(b""), Ok(0)));
    assert!(rt; matches!(sink.put(b"a"), Err(WriteErr::Failed)));
}

/// Of a file that gives its bytes in pieces, is interrupted, or fails in the middle, 4 bytes may be
/// read.
const READS: [(&[Option<usize>], ErrorKind, &str); 5] = [
    (&[Some(0), Some(3), Some(1)], ErrorKind::Other, "xxxx"),
    (
        &[Some(0), Some(2), None, Some(2)],
        ErrorKind::Interrupted,
        "xxxx",
    ),
    (&[Some(2), Some(3)], ErrorKind::Other, "TooLong"),
    (&[None, Some(3)], ErrorKind::Other, "Failed"),
    (&[None, Some(3)], ErrorKind::OutOfMemory, "Memory"),
];

/// Whether the fault of a read is kept that was refused for one, and no other.
fn is_kept(kept: Option<io::Error>, fault: ErrorKind, name: &str) -> bool {
    let is_refused = name == "Failed" || name == "Memory";
    match kept {
        Some(kept) => is_refused && kept.kind() == fault,
        None => !is_refused,
    }
}

#[test]
fn open_files(rt: HostRuntime) {
    for row in &READS {
        let (answers, fault, wanted) = *row;
        let mut file = Told::new(rt.alloc(), answers, fault).expect(&rt, "a reader");
        let mut kept = None;
        let answer = read_at_most(rt.alloc(), &mut file, 4, &mut kept);
        assert!(rt;
            is_read(&rt, &answer, wanted) && is_kept(kept, fault, wanted),
            "{wanted}"
        );
    }
}

/// Whether a file of 600,000 bytes is read whole, and not with a smaller limit.
fn are_whole<F: Files>(host: &HostRuntime, files: &mut F, name: &str, bytes: &str) -> bool {
    is_read(host, &files.read(host.alloc(), name, 600_000), bytes)
        && is_read(host, &files.read(host.alloc(), name, 599_999), "TooLong")
}

/// Whether a file that can't be there is neither read nor written.
fn is_refused<F: Files>(host: &HostRuntime, files: &mut F) -> bool {
    let name = "no/such/file";
    is_read(host, &files.read(host.alloc(), name, 9), "Failed")
        && matches!(files.read_fault(), Some(fault) if fault.kind() == ErrorKind::NotFound)
        && is_written(&files.write(name, b"a"), "Failed")
}

#[test]
fn files_of_the_system(rt: HostRuntime) {
    let name = "rbbi_io_real_files.tmp";
    let bytes = "x".repeat(rt.alloc(), 600_000).expect(&rt, "bytes");
    let mut files = RealFiles::new(&rt);
    files.write(name, b"longer than the next").expect(&rt, name);
    files.write(name, bytes.as_bytes()).expect(&rt, name);
    assert!(rt; are_whole(&rt, &mut files, name, &bytes) && is_refused(&rt, &mut files));
    let is_left = std::fs::exists(&rt, "rbbi_io_real_files.tmp.rbbi-0").expect(&rt, name);
    assert!(rt; !is_left);
    std::fs::remove_file(&rt, name).expect(&rt, name);
}

#[test]
fn a_file_as_a_sink(rt: HostRuntime) {
    let name = "rbbi_io_real_sink.tmp";
    let mut sink = RealSink::new(File::create(&rt, name).expect(&rt, name));
    put_all(&mut sink, b"one ").expect(&rt, name);
    put_all(&mut sink, b"two").expect(&rt, name);
    let text = std::fs::read_to_string(&rt, name).expect(&rt, name);
    assert!(rt; text.as_str() == "one two");
    std::fs::remove_file(&rt, name).expect(&rt, name);
}
