// Sources that are read whole and sinks that are written whole, until a call fails.
use crate::tables::field;
use std::alloc::Global;
use std::fs;
use std::process::Abort;
use sy_io::{
    FileSource, MemSink, MemSource, ReadEnd, Source, StdSink, SureSink, SureSource, read_whole,
    write_whole,
};

const TEXT: [u8; 5] = [10, 20, 30, 40, 50];

/// What comes of the source under the name: the text, nothing, other bytes, or why none are read.
fn read_as<S: Source>(alloc: Global, source: &mut S, name: &str, limit: usize) -> &'static str {
    match read_whole(alloc, source, name, limit) {
        Ok(bytes) => match bytes.as_slice() {
            [] => "nothing",
            bytes if bytes == TEXT.as_slice() => "text",
            _ => "other",
        },
        Err(ReadEnd::TooLong) => "too long",
        Err(ReadEnd::Fault) => "fault",
        Err(ReadEnd::Want) => "memory",
    }
}

/// A name, a limit, the call that fails, and what comes of a source of the text under the name `a`. Call 1 begins;
/// calls 2 to 4 give two, two and one byte, and call 5 finds the end. No call has the number 0.
pub const SOURCES: &str = "\
a|5|0|text
a|5|6|text
b|0|0|nothing
a|4|0|too long
a|5|1|fault
a|5|2|fault
a|5|3|fault
a|5|4|fault
a|5|5|fault";

/// What comes of a source of the text under the name `a`, of which one call fails.
fn failing_as(
    rt: &(impl Abort + AllocGlobal),
    failing: u64,
    name: &str,
    limit: usize,
) -> &'static str {
    let mut source = MemSource::new(rt.alloc(), "a", &TEXT, 2, &[failing]).expect(rt, "a source");
    read_as(rt.alloc(), &mut source, name, limit)
}

/// Whether what comes of the row's source is as it tells.
pub fn is_read(rt: &(impl Abort + AllocGlobal), row: &str) -> bool {
    let limit: usize = field(row, 1).parse().unwrap_or(0);
    let failing: u64 = field(row, 2).parse().unwrap_or(0);
    failing_as(rt, failing, field(row, 0), limit) == field(row, 3)
}

/// Whether a source that can't fail gives its text under its name, and nothing under another.
pub fn is_sure(rt: &(impl Abort + AllocGlobal)) -> bool {
    let mut source = SureSource::new(rt.alloc(), "a", &TEXT).expect(rt, "a source");
    let own = read_as(rt.alloc(), &mut source, "a", 9);
    let other = read_as(rt.alloc(), &mut source, "b", 9);
    (own == "text") & (other == "nothing")
}

/// How many bytes a sink takes, the call that fails, and what it holds once the text was written as far as it can be.
const SINKS: [(usize, u64, &[u8]); 3] = [
    (9, 4, &[10, 20, 30, 40, 50]),
    (9, 2, &[10, 20]),
    (3, 0, &[10, 20, 30]),
];

/// Whether such a sink holds this, and is written whole just where this is the text; and the same where the text is
/// written once more.
fn holds(rt: &(impl Abort + AllocGlobal), room: usize, failing: u64, held: &[u8]) -> bool {
    let mut sink = MemSink::new(rt.alloc(), room, 2, &[failing]).expect(rt, "a sink");
    let is_whole = write_whole(&mut sink, &TEXT).is_ok();
    let is_held = sink.written() == held;
    let is_longer = is_whole && write_whole(&mut sink, &TEXT).is_ok();
    let is_as_told = is_whole == (held == TEXT.as_slice());
    is_held & is_as_told & !is_longer & (sink.written() == held)
}

/// Whether all sinks hold what they are to hold.
pub fn are_written(rt: &(impl Abort + AllocGlobal)) -> bool {
    let mut are_held = write_whole(&mut SureSink::new(), &TEXT).is_ok();
    for (room, failing, held) in &SINKS {
        are_held &= holds(rt, *room, *failing, held);
    }
    are_held
}

#[test]
fn files_are_read_and_standard_sinks_are_written(rt: HostRuntime) {
    fs::write(&rt, "five", TEXT.as_slice()).expect(&rt, "a file");
    let mut files = FileSource::new(&rt);
    let five = read_as(rt.alloc(), &mut files, "five", 9);
    let six = read_as(rt.alloc(), &mut files, "six", 9);
    assert!(rt; (five == "text") & (six == "fault"));
    let is_out = write_whole(&mut StdSink::out(&rt), b"out\n").is_ok();
    let is_err = write_whole(&mut StdSink::err(&rt), b"err\n").is_ok();
    assert!(rt; is_out & is_err);
}
