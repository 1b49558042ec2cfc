//! The program `admission`: one JSON object with a schema and a list of values on standard input, a verdict for each value
//! on standard output, and the status of the run as the process's.
#![tactic(auto)]

use admission_run::{run, setting_of_words};
use regex_texts::RegexTexts;
use run_io::{StdSink, StdSource};
use std::env;
use std::process::ExitCode;

const HELP: &str = "admission [--null-absent]

Reads one JSON object with exactly the members `schema`, a JSON Schema, and `values`, a list, from standard input
(at most 16,777,216 bytes), and prints a line for each value, counted from 0: `value I admitted` where the schema admits
it, else `value I refused`. Or it prints one line that names a fault: the first number of the values that isn't an i64,
or else the first fault of the schema.

With --null-absent null may stand for an absent property: `properties` says nothing of a member that is null and that
`required` of the same schema doesn't list.

The program follows the definition of JSON Schema Draft 7 step by step, and isn't fast. It knows the formats uuid, date,
date-time, ip, ipv4 and ipv6, and plain patterns: of literal characters, `.`, `^`, `$`, classes of ASCII characters, groups,
`|`, `*`, `+`, `?`, `{n}`, `{n,}`, `{n,m}`, escaped punctuation, `\\d` and `\\w`. No text has another pattern.

Status: 0 a line for each value was printed, 1 one line names a fault, 2 there are other words on the command line,
3 the input is too long or isn't that object, 4 reading failed, 5 writing failed, 6 memory ran out.";

fn main(rt: HostRuntime) -> ExitCode {
    let alloc = rt.alloc();
    let words = match env::args(&rt) {
        Ok(args) => args.skip(1).collect::<Vec<String>>(alloc),
        Err(error) if error.kind() == std::io::ErrorKind::OutOfMemory => return ExitCode::from(6),
        Err(_) => return ExitCode::from(2),
    };
    let Ok(words) = words else {
        return ExitCode::from(6);
    };
    if let [word] = words.as_slice() {
        if word.as_str() == "--help" {
            return match println!(rt; "{HELP}") {
                Ok(()) => ExitCode::SUCCESS,
                Err(_) => ExitCode::from(5),
            };
        }
    }
    let Some(setting) = setting_of_words(&words) else {
        return ExitCode::from(2);
    };
    let mut source = StdSource::new(&rt);
    let mut sink = StdSink::new(&rt);
    let mut texts = RegexTexts::new(alloc);
    let outcome = run(alloc, &mut source, &mut sink, &mut texts, setting);
    ExitCode::from(outcome.status())
}
