//! The program `typify`: an input on standard input, which is one JSON object with a schema and a list of values, or for
//! `describe`, `rust`, `explain` and `example` a schema as it is, for `covers` one object with two schemas, and for `lines` a schema and then values, one a line; the page on standard output, and the status of the run as the process's.
#![tactic(auto)]

mod kept;

use covers_run::Covers;
use describe_run::Describing;
use example_run::Exemplifying;
use explain_run::Explaining;
use kept::KeptSource;
use model_lines::run_lines;
use pair_words::run_pair;
use run_forms::run;
use rust_run::RustPrinting;
use schema_tree::Texts;
use schema_words::{Answering, run_word};
use std::alloc::Global;
use std::env;
use std::process::ExitCode;
use typify_run::{RegexTexts, Sink, Source, StdSink, StdSource};

const HELP: &str = "typify check DEPTH [--null-absent]
typify items DEPTH [--null-absent]
typify describe DEPTH [--null-absent]
typify covers DEPTH [--null-absent]
typify rust DEPTH [--null-absent]
typify explain DEPTH [--null-absent]
typify example DEPTH [--null-absent]
typify lines DEPTH [--null-absent]
typify sample N

Reads one JSON object with exactly the members `schema`, a JSON Schema, and `values`, a list, from standard input
(at most 16,777,216 bytes). `check` prints the number of items that the schema compiles to, a line for each note, and a
line for each value: taken, with the value written back, or refused, with the place. `items` passes over the values and
prints the items, each on a line, with their serde attributes. DEPTH is from 1 to 512. With --null-absent null may
stand for the absence of a property that isn't required.

A note, `note WAY KIND PATH`, says that the items don't take exactly the values that the schema admits, and where: WAY
is Widened where they take more, Narrowed where they take fewer; KIND says why, PATH is the place in the schema. Where
`check` prints no note they take exactly those, among values whose numbers are i64.

`describe` reads a schema as it is, bare, and prints what its items take as a schema; `typify describe --help` says more.
`covers` reads one object with the members `old` and `new`, two schemas, and says whether the items of the new one read
what those of the old one write; `typify covers --help` says more.
`rust` reads a schema as it is, too, and prints its items as one Rust module; `typify rust --help` says more.
`explain` reads a schema as it is and says what its fault or its notes mean, and what to change; `typify explain --help`
says more.
`example` reads a schema as it is and prints a value that its items take; `typify example --help` says more.
`lines` reads a schema in the first line and a value in each further one, and answers each as it comes, in the memory of
one line; `typify lines --help` says more. `sample` reads nothing: it examines a schema of N definitions, from 1 to 999,
and N values that it makes itself, and prints how many items, notes and taken values there are.

Status: 0 a page was printed, 1 one line names a fault, 2 other words, 3 the input is too long or isn't that object,
4 reading failed, 5 writing failed, 6 memory ran out, 7 more than 4,294,967,296 bytes came, 8 there is no description, the
new items don't read what the old ones write, or there is no example or it can't be told.";

const CHECK_HELP: &str = "typify check DEPTH [--null-absent]

Reads one JSON object with exactly the members `schema`, a JSON Schema, and `values`, a list, from standard input (at most
16,777,216 bytes), compiles the schema, and prints the number of items, a line for each note, a line for each value, and
`end`. DEPTH is from 1 to 512, and bounds how many steps lead from a definition or the root to a schema of it; 64 serves.
With --null-absent null may stand for the absence of a property that isn't required. `tools/bundle SCHEMA.json --values
FILE` makes such an object of files.

    $ echo '{\"schema\":{\"type\":\"integer\",\"format\":\"uint8\"},\"values\":[5,300]}' | typify check 64
    items 0
    value 0 taken 5
    value 1 refused \"#\"
    end

A value is taken, with what it is written back as, or refused, with the place. A note, `note WAY KIND PATH`, says that the
items don't take exactly the values that the schema admits, and where: WAY is Widened where they take more, Narrowed where
they take fewer. Where none is printed they take exactly those, among values whose numbers are i64. `explain` says of a
schema what its notes, or the fault that keeps it from being compiled, mean.

Status: 0 the page was printed, 1 one line names a fault, 2 other words, 3 the input is too long or isn't that object,
4 reading failed, 5 writing failed, 6 memory ran out.";

const ITEMS_HELP: &str = "typify items DEPTH [--null-absent]

Reads what `check` reads, passes over the values, and prints each item on a line, as serde's derives read it, with one
space between two tokens, then `end`. DEPTH and --null-absent are those of `check`. `rust` prints them as a module.

    $ echo '{\"schema\":{\"title\":\"Point\",\"type\":\"object\",\"required\":[\"x\"],\"properties\":{\"x\":{\"type\":\"integer\"}}},\"values\":[]}' | typify items 64
    struct Point { x : i64 , }
    end

Status: 0 the page was printed, 1 one line names a fault, 2 other words, 3 the input is too long or isn't that object,
4 reading failed, 5 writing failed, 6 memory ran out.";

const SAMPLE_HELP: &str = "typify sample N

Reads nothing: examines a schema of N definitions, from 1 to 999, and N values that it makes itself, and prints how many
items, notes and taken values there are. It serves to measure the program.

    $ typify sample 3
    sample 3
    items 4
    notes 0
    taken 3
    end

Status: 0 the counts were printed, 2 other words, 5 writing failed, 6 memory ran out.";

const DESCRIBE_HELP: &str = "typify describe DEPTH [--null-absent]

Reads a JSON Schema as it is from standard input (at most 16,777,216 bytes), compiles it as `check` does, and prints the
schema of exactly the values with i64 numbers that the items take: one JSON text, indented. DEPTH and --null-absent are
those of `check`. Where `check` prints no note, the schema that is printed, read without --null-absent, admits exactly
those values with i64 numbers that the one that was read admits, under --null-absent where that was said. It compiles
without a note at a DEPTH of its number of schemas, as long as it is nested at most 127 deep.

    $ echo '{\"type\":\"array\",\"items\":{\"type\":\"boolean\"}}' | typify describe 64
    {
      \"items\": {
        \"type\": \"boolean\"
      },
      \"type\": \"array\"
    }

Where the items with the root are no plain table the line `not plain NAME` names the first item that keeps them from it,
and `not plain` says that the root alone does. Not plain are sets, patterns, listed values that are forbidden or allowed,
whole numbers from 1 on, defaults that are stated, null and options but as a property's type, choices by a tag that are
open, and choices without a tag of which two variants take values of one kind.

Status: 0 a schema was printed, 1 one line names a fault, 2 other words, 3 the input is too long or isn't JSON, 4 reading
failed, 5 writing failed, 6 memory ran out, 8 the items have no description.";

const COVERS_HELP: &str = "typify covers DEPTH [--null-absent]

Reads one JSON object with exactly the members `old` and `new`, two JSON Schemas, from standard input (at most 16,777,216
bytes), compiles both as `check` does, and prints for each the number of items and a line for each note, then `covered`
or `broken RULE WAY OLD NEW`, and `end`. DEPTH and --null-absent are those of `check`, for both.

    $ echo '{\"old\":{\"type\":\"integer\",\"format\":\"uint8\"},\"new\":{\"type\":\"integer\",\"format\":\"int8\"}}' | typify covers 64
    old items 0
    new items 0
    broken Range \"#\" \"u8\" \"i8\"
    end

`covered` promises that the new items read each value that the old ones read, as the old ones write it: with stated
defaults filled in, and under the names that are written. Where besides `old note Narrowed` and `new note Widened` don't
stand in the page, what a value settles to that the old schema admits, the new one admits, among values whose numbers are
i64.

`broken` names the first pair of types that breaks a rule, and the way to it as a place in old values, each as a JSON
string; the contents of a variant are written `ITEM::VARIANT`. RULE is Kind, Range, Rule, Length, Tag, Variant, Missing,
Unknown, Twice or Rest; docs/EVOLUTION.md has the table. It doesn't say that some value shows the difference.

Status: 0 covered, 1 one line names a fault behind `old` or `new`, 2 other words, 3 the input is too long or isn't that
object, 4 reading failed, 5 writing failed, 6 memory ran out, 8 broken.";

const RUST_HELP: &str = "typify rust DEPTH [--null-absent]

Reads a JSON Schema as it is from standard input (at most 16,777,216 bytes), compiles it as `check` does, and prints the
items as one Rust module, which compiles as it stands. DEPTH and --null-absent are those of `check`.

    $ echo '{\"title\":\"Point\",\"type\":\"object\",\"required\":[\"x\"],\"properties\":{\"x\":{\"type\":\"integer\"}}}' | typify rust 64 > point.rs

The module begins with a comment: the version, the number of items, a line for each note, and the type that stands for the
schema. Then come helpers that attributes name, a function for each default that is stated, and each item with `pub`,
derives and serde's attributes; a newtype with a rule has a `TryFrom` that asks it. The titles and descriptions of the root
and of the definitions stand above their items. It stands on serde (with derive) and serde_json, and, where a type or a
rule names them, on uuid and chrono (with serde) and regex. docs/USING.md goes through it.

Std and serde have no traits for tuples of more than 12 places and arrays of more than 32: a comment says where one
stands, and its traits are yours to write.

Status: 0 a module was printed, 1 one line names a fault, 2 other words, 3 the input is too long or isn't JSON, 4 reading
failed, 5 writing failed, 6 memory ran out.";

const EXPLAIN_HELP: &str = "typify explain DEPTH [--null-absent]

Reads a JSON Schema as it is from standard input (at most 16,777,216 bytes), compiles it as `check` does, and says what
comes of it. DEPTH and --null-absent are those of `check`.

    $ echo '{\"type\":\"array\",\"items\":true,\"uniqueItems\":true,\"minContains\":1}' | typify explain 64
    compiles
    items 0
    note Widened array \"#\"
    means A list's sizes, and that a set's items differ, are left out: a set drops repeated items when it is read.
    passed-over \"minContains\" \"#\"
    end

Where it compiles there are the number of items, and the line of each note with a line `means`. Where it doesn't there is
the line of the first fault, as `check` prints it, then lines for what it carries (`keyword`, `reference`, `step`, `value`,
`places` or `kind`), a line `rule` and a line `change`, and what stands at its place: `found` and `value` of a malformed
keyword, `found` of what a reference that names no definition leads to, the `type` of a schema whose value isn't read, and
of each pattern that isn't plain `pattern` and `reading`, which says where reading it stops. Behind either a line `passed-over KEYWORD PLACE` names each keyword of
the schema that isn't read though it binds values or names schemas in some draft of JSON Schema. docs/FAULTS.md and
docs/NOTES.md say more of each fault and each note.

Status: 0 it compiles, 1 it has a fault, 2 other words, 3 the input is too long or isn't JSON, 4 reading failed, 5 writing
failed, 6 memory ran out.";

const EXAMPLE_HELP: &str = "typify example DEPTH [--null-absent]

Reads a JSON Schema as it is from standard input (at most 16,777,216 bytes), compiles it as `check` does, and prints a
value that the items take: one JSON text, indented. DEPTH and --null-absent are those of `check`.

    $ echo '{\"type\":\"object\",\"properties\":{\"a\":{\"type\":\"string\",\"minLength\":2}},\"required\":[\"a\"]}' | typify example 64
    {
      \"a\": \"aa\"
    }

The line `none` says that no value with i64 numbers is taken: where `check` prints no Narrowed note the schema admits no
such value either. The line `outside NAME` names the first item, and `outside` the root's own type, that has a date, a
UUID or an address, a pattern, or a list of forbidden values, also at a property that may be left out: then it isn't told
whether there is an example. A value that is nested more than 127 deep is printed, but isn't read by `check`.

Status: 0 a value was printed, 1 one line names a fault, 2 other words, 3 the input is too long or isn't JSON, 4 reading
failed, 5 writing failed, 6 memory ran out, 8 there is none, or it can't be told.";

const LINES_HELP: &str = "typify lines DEPTH [--null-absent]

Reads lines from standard input: the first is a JSON Schema, each further one a JSON value, at most 1,048,576 bytes each.
It prints the number of items and a line for each note, as `check` does, then an answer to each value as it comes, in the
memory of one line, and `end`. DEPTH and --null-absent are those of `check`.

    $ printf '%s\\n' '{\"type\":\"integer\",\"format\":\"uint8\"}' 5 300 x | typify lines 64
    items 0
    line 0 taken 5
    line 1 refused \"#\"
    line 2 not-json
    end

An answer is `taken` with the value written back, `refused` with the place, `not-json`, `long` for a line of more bytes,
or `number` with the place of a number that isn't an i64.

Status: 0 all lines were answered, 1 a line names a fault, 2 other words, 3 the first line is missing, too long or isn't
JSON, 4 reading failed, 5 writing failed, 6 memory ran out, 7 more than 4,294,967,296 bytes came.";

const VERSION: &str = "typify 0.8.0";

/// Whether the word reads a schema as it is.
fn reads_schema(word: &str) -> bool {
    match word {
        "describe" | "rust" | "explain" | "example" => true,
        _ => false,
    }
}

/// One line for standard error where standard output got no whole page: what the status may come of, and where to look.
fn hint(word: &str, status: u8) -> Option<&'static str> {
    match status {
        2 => Some(
            "typify: these words are none of `check`, `items`, `describe`, `covers`, `rust`, `explain`, `example` and `lines` with a DEPTH from 1 to 512, alone or with `--null-absent` behind it, and no `sample` with an N from 1 to 999; `typify --help` says more",
        ),
        3 if word == "explain" => Some(
            "typify: the input isn't one JSON text of at most 16,777,216 bytes",
        ),
        3 if reads_schema(word) => Some(
            "typify: the input isn't one JSON text: it may end early, begin with a byte order mark, be nested more than 127 deep, or be longer than 16,777,216 bytes; `typify explain 64` names the line",
        ),
        3 if word == "covers" => Some(
            "typify: the input isn't one JSON object with exactly the members `old` and `new`: it may be a bare schema, lack a member or have another, end early, begin with a byte order mark, be nested more than 127 deep, or be longer than 16,777,216 bytes; `typify explain 64` reads one of the two alone, and names the line of what isn't JSON",
        ),
        3 if word == "lines" => Some(
            "typify: the first line isn't one JSON text: there may be none, it may be a part of one, begin with a byte order mark, be nested more than 127 deep, or be longer than 1,048,576 bytes; `typify explain 64` reads a schema alone, and names the line of what isn't JSON",
        ),
        3 => Some(
            "typify: the input isn't one JSON object with exactly the members `schema` and `values`, a list: it may be a bare schema, lack a member or have another, end early, begin with a byte order mark, be nested more than 127 deep, or be longer than 16,777,216 bytes; `typify explain 64` reads a bare schema, and names the line of what isn't JSON",
        ),
        4 => Some("typify: reading standard input failed"),
        5 => Some("typify: writing to standard output failed"),
        6 if word == "explain" => Some(
            "typify: memory ran out, or more than 300 schemas stand in one another, or more than 20,000,000 parts would be merged, or a default is more than 1,000 levels deep",
        ),
        6 => Some(
            "typify: memory ran out, or more than 300 schemas stand in one another, or more than 20,000,000 parts would be merged, or a value or a default is more than 1,000 levels deep, or an example is made of more than 1,000,000 types; `typify explain 64` reads the schema alone: where that ends so too, it is the schema, and docs/FAULTS.md has what to change",
        ),
        7 => Some("typify: more than 4,294,967,296 bytes came"),
        _ => None,
    }
}

/// The text that a word asks for, where it asks for one that is written here.
fn told(word: &str) -> Option<&'static str> {
    match word {
        "--help" | "-h" | "help" => Some(HELP),
        "--version" | "-V" => Some(VERSION),
        _ => None,
    }
}

/// The text that a word and what stands behind it ask for.
fn told_of(word: &str, about: &str) -> Option<&'static str> {
    match word {
        "check" if about == "--help" || about == "-h" => Some(CHECK_HELP),
        "help" if about == "check" => Some(CHECK_HELP),
        "items" if about == "--help" || about == "-h" => Some(ITEMS_HELP),
        "help" if about == "items" => Some(ITEMS_HELP),
        "sample" if about == "--help" || about == "-h" => Some(SAMPLE_HELP),
        "help" if about == "sample" => Some(SAMPLE_HELP),
        "describe" if about == "--help" || about == "-h" => Some(DESCRIBE_HELP),
        "help" if about == "describe" => Some(DESCRIBE_HELP),
        "covers" if about == "--help" || about == "-h" => Some(COVERS_HELP),
        "help" if about == "covers" => Some(COVERS_HELP),
        "rust" if about == "--help" || about == "-h" => Some(RUST_HELP),
        "help" if about == "rust" => Some(RUST_HELP),
        "explain" if about == "--help" || about == "-h" => Some(EXPLAIN_HELP),
        "help" if about == "explain" => Some(EXPLAIN_HELP),
        "example" if about == "--help" || about == "-h" => Some(EXAMPLE_HELP),
        "help" if about == "example" => Some(EXAMPLE_HELP),
        "lines" if about == "--help" || about == "-h" => Some(LINES_HELP),
        "help" if about == "lines" => Some(LINES_HELP),
        _ => None,
    }
}

/// The status of a word that reads a schema as it is.
fn answered<S: Source, K: Sink, T: Texts, A: Answering>(
    alloc: Global,
    word: &str,
    words: &[String],
    source: &mut S,
    sink: &mut K,
    texts: &mut T,
    answering: &A,
) -> u8 {
    run_word(alloc, word, words, source, sink, texts, answering).status()
}

fn main(rt: HostRuntime) -> ExitCode {
    let alloc = rt.alloc();
    let words = match env::args(&rt) {
        Ok(args) => args.skip(1).collect::<Vec<String>>(alloc),
        Err(error) if error.kind() == std::io::ErrorKind::OutOfMemory => return ExitCode::from(6),
        Err(_) => return ExitCode::from(2),
    };
    let Ok(words) = words else {
        return ExitCode::from(6);
    };
    let words = words.as_slice();
    let text = match words {
        [word] => told(word),
        [word, about] => told_of(word, about),
        _ => None,
    };
    if let Some(text) = text {
        return match println!(rt; "{text}") {
            Ok(()) => ExitCode::SUCCESS,
            Err(_) => ExitCode::from(5),
        };
    }
    let first = match words {
        [word, ..] => word.as_str(),
        [] => "",
    };
    let mut source = StdSource::new(&rt);
    let mut sink = StdSink::new(&rt);
    let mut texts = RegexTexts::new(alloc);
    let status = match first {
        "describe" => answered(
            alloc,
            first,
            words,
            &mut source,
            &mut sink,
            &mut texts,
            &Describing,
        ),
        "rust" => answered(
            alloc,
            first,
            words,
            &mut source,
            &mut sink,
            &mut texts,
            &RustPrinting,
        ),
        "explain" => {
            let mut kept = KeptSource::new(alloc, source);
            let status = answered(
                alloc,
                first,
                words,
                &mut kept,
                &mut sink,
                &mut texts,
                &Explaining,
            );
            if status == 3 {
                if let Some((line, bytes)) = kept.stops(alloc) {
                    let _ = eprintln!(rt;
                        "typify: the input isn't JSON, or is nested more than 127 deep, at byte {bytes} of line {line} or just before it"
                    );
                    return ExitCode::from(3);
                }
            }
            status
        }
        "example" => answered(
            alloc,
            first,
            words,
            &mut source,
            &mut sink,
            &mut texts,
            &Exemplifying,
        ),
        "covers" => {
            let covers = Covers;
            run_pair(
                alloc,
                first,
                words,
                &mut source,
                &mut sink,
                &mut texts,
                &covers,
            )
            .status()
        }
        "lines" => run_lines(alloc, words, &mut source, &mut sink, &mut texts).status,
        _ => run(alloc, words, &mut source, &mut sink, &mut texts).status,
    };
    if let Some(line) = hint(first, status) {
        let _ = eprintln!(rt; "{line}");
    }
    ExitCode::from(status)
}
