//! The run by all forms of words.
ghost use Rattle.std.specs.Prelude.{◌≡◌, ◌≤◌, ◌↔◌, ℕ, map, Some, None, string_bytes};
ghost use Rattle.schema_defs.specs.Faults.{Rises};
ghost use Rattle.typify_run.specs.Words.{depth_said};
ghost use Rattle.sample_run.specs.Words.{sample_said};
ghost use Rattle.sample_run.specs.Sampled.{EndsSampled};
ghost use Rattle.run_forms.specs.Others.{EndsAsRun};

use run_io::{Sink, Source};
use sample_run::{run_sample, sample_of_words};
use schema_tree::Texts;
use std::alloc::Global;
use typify_run::Outcome;

/// Runs the program: the words after its name, an input from the source, the page or the line of a fault to the sink.
/// `sample N`, with N from 1 to 999, reads nothing and asks nothing of the judge of texts, and ends as `run_sample` does.
/// With any other words it ends as `run` of typify_run does (`EndsAsRun`).
pub fn run<S: Source, K: Sink, T: Texts>(
    alloc: Global,
    words: &[String],
    source: &mut S,
    sink: &mut K,
    texts: &mut T,
) -> Outcome
    ensures within { result.status ≤ 6 }
    ensures words { (result.status ≡ 2) ↔ ((depth_said (map string_bytes words.now) ≡ None) × (sample_said (map string_bytes words.now) ≡ None)) }
    ensures sample { (n : ℕ) → sample_said (map string_bytes words.now) ≡ Some n → EndsSampled n (K.written sink.old) (K.written sink.new) result.status result.report result.fault }
    ensures unread { (n : ℕ) → sample_said (map string_bytes words.now) ≡ Some n → (S.left source.new ≡ S.left source.old) × (S.faults source.new ≡ S.faults source.old) × (T.faults texts.new ≡ T.faults texts.old) }
    ensures others { sample_said (map string_bytes words.now) ≡ None → EndsAsRun (map string_bytes words.now) (record {
      texts = T.relations texts.old;
      judged = T.faults texts.old;
      judged_after = T.faults texts.new;
      left = S.left source.old;
      left_after = S.left source.new;
      reads = S.faults source.old;
      reads_after = S.faults source.new;
      written = K.written sink.old;
      written_after = K.written sink.new;
      writes = K.faults sink.old;
      writes_after = K.faults sink.new;
    }) result.status result.report result.fault }
    ensures write_fault { result.status ≡ 5 → Rises (K.faults sink.old) (K.faults sink.new) }
    ensures kept_source { S.faults source.old ≤ S.faults source.new }
    ensures kept_sink { K.faults sink.old ≤ K.faults sink.new }
    ensures keeps { T.relations texts.new ≡ T.relations texts.old }
    ensures counts { T.faults texts.old ≤ T.faults texts.new }
{
    match sample_of_words(words) {
        Some(_number) => run_sample(alloc, words, sink),
        None => typify_run::run(alloc, words, source, sink, texts),
    }
}
