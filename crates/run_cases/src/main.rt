//! Whole runs over sources and sinks in memory. Each line of standard input has three parts with tabs between them: the
//! words, the streams, and the input. The words are those of `typify` (`describe`, `rust`, `explain` and `example` among them, whose input is a schema as it is, `sample`, which reads nothing, `covers`, whose input is two schemas, and `lines`, in whose input `␊` stands for a line feed), or `admission` with or without `--null-absent`, for
//! the plain program. The word `examine` stands for the call of that name at depth 8; `redescribe` and a type for the call of that name, whose input is items and values (redescribed.rt). The streams are nothing where nothing disturbs the run, or one of these:
//! - four numbers: how many bytes the source gives at once and which of its reads fails, how many bytes the sink takes at once and which of its writes fails;
//! - `padded` and a number: blanks stand behind the input, up to so many bytes;
//! - `judge`, a number, a pattern and a text: the judge of texts knows that pattern alone, which that text alone has, and fails at its call of that number, from 0.
//!
//! The line is printed, and behind it the status and what was written.
#![tactic(auto)]

mod redescribed;

use crate::redescribed::redescription;
use covers_run::Covers;
use describe_run::Describing;
use example_run::Exemplifying;
use explain_run::Explaining;
use model_lines::run_lines;
use pair_words::run_pair;
use run_input::{input_parts, input_value};
use run_io::{MemorySink, MemorySource, PlainSink, PlainSource, Sink, Source};
use rust_run::RustPrinting;
use schema_tree::{FailingTexts, PlainTexts, Setting, Texts};
use schema_words::run_word;
use std::alloc::{AllocError, Global};
use typify_run::{RegexTexts, Report, examine};

fn main(rt: HostRuntime) -> Result<(), anyhow::Error> {
    for line in rt.lines(rt.alloc()) {
        let line = line?;
        let found = answer(rt.alloc(), &line)?;
        println!(rt; "{line} => {found}")?;
    }
    Ok(())
}

fn answer(alloc: Global, line: &str) -> Result<String, AllocError> {
    let Some((words, rest)) = line.split_once('\t') else {
        return String::from_str(alloc, "no case");
    };
    let Some((streams, input)) = rest.split_once('\t') else {
        return String::from_str(alloc, "no case");
    };
    if words == "examine" {
        return examined(alloc, input);
    }
    if let Some(root) = words.strip_prefix("redescribe ") {
        return redescription(alloc, root, input);
    }
    let called = Called::read(alloc, words)?;
    if words.starts_with("lines") {
        let lines = with_feeds(alloc, input)?;
        return ran(alloc, &called, streams, lines.as_str());
    }
    ran(alloc, &called, streams, input)
}

// What a run over such streams gives.
fn ran(alloc: Global, called: &Called, streams: &str, input: &str) -> Result<String, AllocError> {
    let Some((first, others)) = streams.split_once(' ') else {
        return plain_run(alloc, called, input);
    };
    match first {
        "padded" => padded_run(alloc, called, others, input),
        "judge" => judged_run(alloc, called, others, input),
        _ => streamed_run(alloc, called, streams, input),
    }
}

// The input of `lines`.
fn with_feeds(alloc: Global, input: &str) -> Result<String, AllocError> {
    let mut text = String::new(alloc);
    for character in input.chars() {
        text.push(if character == '␊' { '\n' } else { character })?;
    }
    Ok(text)
}

// What the examination of an input gives.
fn examined(alloc: Global, input: &str) -> Result<String, AllocError> {
    let Ok(value) = input_value(alloc, input.as_bytes()) else {
        return String::from_str(alloc, "no input");
    };
    let Some(parts) = input_parts(&value) else {
        return String::from_str(alloc, "no input");
    };
    let mut texts = RegexTexts::new(alloc);
    match examine(alloc, parts.schema, 8, parts.values, &mut texts) {
        Ok(report) => report_text(alloc, &report),
        Err(_) => String::from_str(alloc, "a fault"),
    }
}

// The numbers of items and of notes, and whether each value is taken.
fn report_text(alloc: Global, report: &Report) -> Result<String, AllocError> {
    let count = report.items.len();
    let notes = report.notes.len();
    let mut text = format!(in alloc; "items {count} notes {notes}")?;
    for verdict in &report.verdicts {
        match verdict.taken() {
            Some(_) => text.push_str(" taken")?,
            None => text.push_str(" refused")?,
        }
    }
    Ok(text)
}

/// What is run.
#[derive(Drop)]
enum Called {
    /// `typify` with these words.
    Product(Vec<String>),
    /// The plain program under that setting.
    Plain(Setting),
}

impl Called {
    fn read(alloc: Global, words: &str) -> Result<Called, AllocError> {
        match words {
            "admission" => Ok(Called::Plain(Setting::Strict)),
            "admission --null-absent" => Ok(Called::Plain(Setting::NullAbsent)),
            _ => Ok(Called::Product(words_of(alloc, words)?)),
        }
    }

    // The status with which it ends.
    fn run<S: Source, K: Sink, T: Texts>(
        &self,
        alloc: Global,
        source: &mut S,
        sink: &mut K,
        texts: &mut T,
    ) -> u8 {
        match self {
            Called::Product(words) => { product_run(alloc, words.as_slice(), source, sink, texts) }
            Called::Plain(setting) => {
                admission_run::run(alloc, source, sink, texts, *setting).status()
            }
        }
    }
}

// The status with which `typify` ends, which goes by the first word.
fn product_run<S: Source, K: Sink, T: Texts>(
    alloc: Global,
    words: &[String],
    source: &mut S,
    sink: &mut K,
    texts: &mut T,
) -> u8 {
    let first = match words {
        [first, ..] => first.as_str(),
        [] => "",
    };
    match first {
        "describe" => { run_word(alloc, first, words, source, sink, texts, &Describing).status() }
        "covers" => { run_pair(alloc, first, words, source, sink, texts, &Covers).status() }
        "rust" => { run_word(alloc, first, words, source, sink, texts, &RustPrinting).status() }
        "explain" => { run_word(alloc, first, words, source, sink, texts, &Explaining).status() }
        "example" => { run_word(alloc, first, words, source, sink, texts, &Exemplifying).status() }
        "lines" => run_lines(alloc, words, source, sink, texts).status,
        _ => run_forms::run(alloc, words, source, sink, texts).status,
    }
}

// Words, each after a blank but the first.
fn words_of(alloc: Global, line: &str) -> Result<Vec<String>, AllocError> {
    let mut words = Vec::new(alloc);
    for word in line.split(' ') {
        words.push(String::from_str(alloc, word)?)?;
    }
    Ok(words)
}

#[derive(Drop)]
struct Streams {
    given: usize,
    failing_read: u64,
    taken: usize,
    failing_write: u64,
}

impl Streams {
    // The four numbers, or nothing where they are others.
    fn read(alloc: Global, text: &str) -> Result<Option<Streams>, AllocError> {
        let mut numbers = Vec::new(alloc);
        for word in text.split(' ') {
            match word.parse::<u64>() {
                Ok(number) => numbers.push(number)?,
                Err(_) => return Ok(None),
            }
        }
        Ok(Streams::of(numbers.as_slice()))
    }

    fn of(numbers: &[u64]) -> Option<Streams> {
        match numbers {
            [given, failing_read, taken, failing_write] => Some(Streams {
                given: *given as usize,
                failing_read: *failing_read,
                taken: *taken as usize,
                failing_write: *failing_write,
            }),
            _ => None,
        }
    }
}

// A run whose streams nothing disturbs, by that judge of texts.
fn run_by<T: Texts>(
    alloc: Global,
    called: &Called,
    texts: &mut T,
    input: &str,
) -> Result<String, AllocError> {
    let mut source = PlainSource::new(Vec::from_slice(alloc, input.as_bytes())?);
    let mut sink = PlainSink::new(alloc);
    let status = called.run(alloc, &mut source, &mut sink, texts);
    ended(alloc, status, sink.written())
}

fn plain_run(alloc: Global, called: &Called, input: &str) -> Result<String, AllocError> {
    let mut texts = RegexTexts::new(alloc);
    run_by(alloc, called, &mut texts, input)
}

fn padded_run(
    alloc: Global,
    called: &Called,
    length: &str,
    input: &str,
) -> Result<String, AllocError> {
    let Ok(length) = length.parse::<usize>() else {
        return String::from_str(alloc, "no streams");
    };
    let mut padded = String::from_str(alloc, input)?;
    for _ in input.len()..length {
        padded.push(' ')?;
    }
    plain_run(alloc, called, &padded)
}

fn judged_run(
    alloc: Global,
    called: &Called,
    judge: &str,
    input: &str,
) -> Result<String, AllocError> {
    match judge_of(alloc, judge)? {
        Some(mut texts) => run_by(alloc, called, &mut texts, input),
        None => String::from_str(alloc, "no judge"),
    }
}

// The judge that the words say: the call that fails, a pattern, and the text that has it.
fn judge_of(alloc: Global, words: &str) -> Result<Option<FailingTexts>, AllocError> {
    let Some((call, rest)) = words.split_once(' ') else {
        return Ok(None);
    };
    let Ok(call) = call.parse::<u64>() else {
        return Ok(None);
    };
    let Some((pattern, text)) = rest.split_once(' ') else {
        return Ok(None);
    };
    let mut plain = PlainTexts::new(alloc);
    let pattern = String::from_str(alloc, pattern)?;
    let text = String::from_str(alloc, text)?;
    plain.add(pattern, vec![in alloc; text]?)?;
    let failing = Vec::from_slice(alloc, &[call])?;
    Ok(Some(FailingTexts::new(plain, failing)))
}

fn streamed_run(
    alloc: Global,
    called: &Called,
    streams: &str,
    input: &str,
) -> Result<String, AllocError> {
    match Streams::read(alloc, streams)? {
        Some(streams) => disturbed_run(alloc, called, &streams, input),
        None => String::from_str(alloc, "no streams"),
    }
}

fn disturbed_run(
    alloc: Global,
    called: &Called,
    streams: &Streams,
    input: &str,
) -> Result<String, AllocError> {
    let bytes = Vec::from_slice(alloc, input.as_bytes())?;
    let failing = Vec::from_slice(alloc, &[streams.failing_read])?;
    let mut source = MemorySource::new(bytes, streams.given.max(1), failing);
    let failing = Vec::from_slice(alloc, &[streams.failing_write])?;
    let mut sink = MemorySink::new(alloc, streams.taken, failing);
    let mut texts = RegexTexts::new(alloc);
    let status = called.run(alloc, &mut source, &mut sink, &mut texts);
    ended(alloc, status, sink.written())
}

// How a run ended: its status, and what it wrote, with `;` in the place of each line feed.
fn ended(alloc: Global, status: u8, written: &[u8]) -> Result<String, AllocError> {
    let text = String::from_utf8_lossy(alloc, written)?;
    let mut shown = format!(in alloc; "{status}")?;
    for line in text.split('\n') {
        shown.push(' ')?;
        shown.push_str(line)?;
        shown.push(';')?;
    }
    Ok(shown)
}
