//! Sources, sinks and the two loops over them. A line is one of these, where a number of a failing call is from 0:
//! - `plain READS TEXT`, `pieces READS PIECE FAILING TEXT` and `standard READS`: what so many reads into four bytes give, each in brackets, `!` where it
//!   failed; of a source of that text, of one that gives at most so many bytes at once and fails at calls of those numbers, and of a runtime's input;
//! - `input PIECE FAILING LIMIT TEXT` and `long COUNT`: what is read to its end, or the fault; and how much of so many bytes;
//! - `put PIECE FAILING TEXT` and `put_plain TEXT..`: how putting the text ended, or each of the texts, and what was written;
//! - `put_standard TEXT` and `put_failing TEXT`: how putting ended in a runtime's output that takes two bytes at once, or fails;
//! - `faults`: the texts of the faults.
use run_io::{
    Failed, InputFault, MemorySink, MemorySource, PlainSink, PlainSource, Sink, SinkFault, Source,
    StdSink, StdSource, put, read_input,
};
use std::alloc::{AllocError, Allocator, Global};
use std::fmt::{Display, Write};
use std::io;
use std::io::{BufRead, ErrorKind, Input, Lines, Print};

// A runtime whose input is `abc` and whose output takes two bytes, or fails.
#[derive(Drop)]
struct Fake {
    fails: bool,
}

impl Input for Fake {
    type Reader = &'static [u8];

    fn read_line<A: Allocator + Clone>(&self, _buf: &mut String<A>) -> io::Result<usize> {
        Ok(0)
    }

    fn lines<A: Allocator>(&self, alloc: A) -> Lines<&'static [u8], A> {
        self.reader().lines(alloc)
    }

    fn reader(&self) -> &'static [u8] {
        b"abc"
    }
}

impl Print for Fake {
    fn print<D: Display + Drop>(&self, _value: D) -> io::Result<()> {
        Ok(())
    }

    fn println<D: Display + Drop>(&self, _value: D) -> io::Result<()> {
        Ok(())
    }

    fn write_all(&self, _bytes: &[u8]) -> io::Result<()> {
        Ok(())
    }

    fn write_some(&self, bytes: &[u8]) -> io::Result<usize> {
        if self.fails {
            return Err(ErrorKind::Other.into());
        }
        Ok(bytes.len().min(2))
    }
}

fn number(word: &str) -> u32 {
    word.parse::<u32>().unwrap_or(0)
}

// The numbers between commas.
fn numbers(alloc: Global, words: &str) -> Result<Vec<u64>, AllocError> {
    let mut numbers = Vec::new(alloc);
    for word in words.split(',') {
        numbers.push(u64::from(number(word)))?;
    }
    Ok(numbers)
}

// ---- sources

fn pieces_of(
    alloc: Global,
    piece: &str,
    failing: &str,
    text: &str,
) -> Result<MemorySource, AllocError> {
    let bytes = Vec::from_slice(alloc, text.as_bytes())?;
    let failing = numbers(alloc, failing)?;
    let piece = number(piece) as usize;
    Ok(MemorySource::new(bytes, piece.max(1), failing))
}

fn push_read<S: Source>(alloc: Global, source: &mut S, out: &mut String) -> Result<(), AllocError> {
    let mut into = [0u8; 4];
    match source.read(&mut into) {
        Ok(count) => {
            let text = String::from_utf8_lossy(alloc, &into[..count])?;
            write!(out, "[{text}]")
        }
        Err(_) => out.push_str("!"),
    }
}

// What so many reads into four bytes give.
fn shown_reads<S: Source>(
    alloc: Global,
    source: &mut S,
    reads: &str,
) -> Result<String, AllocError> {
    let mut out = String::new(alloc);
    for _ in 0..number(reads) {
        push_read(alloc, source, &mut out)?;
    }
    Ok(out)
}

// What is read to its end, or why it isn't.
fn shown_input<S: Source>(
    alloc: Global,
    source: &mut S,
    limit: &str,
) -> Result<String, AllocError> {
    match read_input(alloc, source, number(limit) as usize) {
        Ok(bytes) => String::from_utf8_lossy(alloc, &bytes),
        Err(fault) => format!(in alloc; "{fault}"),
    }
}

// How many of so many bytes are read.
fn long_text(alloc: Global, count: &str) -> Result<String, AllocError> {
    let limit = number(count) as usize;
    let mut source = PlainSource::new(vec![in alloc; 7u8; limit]?);
    match read_input(alloc, &mut source, limit) {
        Ok(bytes) => {
            let length = bytes.len();
            format!(in alloc; "{length} read")
        }
        Err(fault) => format!(in alloc; "{fault}"),
    }
}

// ---- sinks

fn push_end(ended: Result<(), SinkFault>, out: &mut String) -> Result<(), AllocError> {
    match ended {
        Ok(()) => out.push_str("whole "),
        Err(SinkFault::Memory) => out.push_str("memory "),
        Err(SinkFault::Failed) => out.push_str("failed "),
    }
}

fn put_in_pieces(
    alloc: Global,
    piece: &str,
    failing: &str,
    text: &str,
) -> Result<String, AllocError> {
    let mut out = String::new(alloc);
    let mut sink = MemorySink::new(alloc, number(piece) as usize, numbers(alloc, failing)?);
    push_end(put(&mut sink, text.as_bytes()), &mut out)?;
    out.push_str(&String::from_utf8_lossy(alloc, sink.written())?)?;
    Ok(out)
}

// Each of the texts is put behind those before it.
fn put_plain(alloc: Global, texts: &[&str]) -> Result<String, AllocError> {
    let mut out = String::new(alloc);
    let mut sink = PlainSink::new(alloc);
    for text in texts {
        push_end(put(&mut sink, text.as_bytes()), &mut out)?;
    }
    out.push_str(&String::from_utf8_lossy(alloc, sink.written())?)?;
    Ok(out)
}

fn put_standard(alloc: Global, fails: bool, text: &str) -> Result<String, AllocError> {
    let mut out = String::new(alloc);
    let mut sink = StdSink::new(Fake { fails });
    push_end(put(&mut sink, text.as_bytes()), &mut out)?;
    Ok(out)
}

// ---- lines

fn read_by(alloc: Global, words: &[&str]) -> Result<String, AllocError> {
    match words {
        ["plain", reads, text] => {
            let mut source = PlainSource::new(Vec::from_slice(alloc, text.as_bytes())?);
            shown_reads(alloc, &mut source, reads)
        }
        ["pieces", reads, piece, failing, text] => {
            let mut source = pieces_of(alloc, piece, failing, text)?;
            shown_reads(alloc, &mut source, reads)
        }
        ["standard", reads] => {
            let mut source = StdSource::new(&Fake { fails: false });
            shown_reads(alloc, &mut source, reads)
        }
        ["input", piece, failing, limit, text] => {
            let mut source = pieces_of(alloc, piece, failing, text)?;
            shown_input(alloc, &mut source, limit)
        }
        _ => String::from_str(alloc, "no case"),
    }
}

fn asked(alloc: Global, words: &[&str]) -> Result<String, AllocError> {
    match words {
        ["long", count] => long_text(alloc, count),
        ["put", piece, failing, text] => put_in_pieces(alloc, piece, failing, text),
        ["put_plain", texts @ ..] => put_plain(alloc, texts),
        ["put_standard", text] => put_standard(alloc, false, text),
        ["put_failing", text] => put_standard(alloc, true, text),
        ["faults"] => format!(in alloc;
            "{}, {}, {}, {}",
            Failed,
            SinkFault::Memory,
            SinkFault::Failed,
            InputFault::Memory
        ),
        _ => read_by(alloc, words),
    }
}

/// What the line asks.
pub(crate) fn answer(alloc: Global, line: &str) -> Result<String, AllocError> {
    let mut words = Vec::new(alloc);
    for word in line.split(' ') {
        words.push(word)?;
    }
    asked(alloc, &words)
}
