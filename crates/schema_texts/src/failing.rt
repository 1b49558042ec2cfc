//! A judge that fails at given calls.
ghost use Rattle.std.specs.Prelude.{◌≡◌, ◌↔◌, ◌+◌, ◌-◌, ◌^◌, ◌≤◌, min, Contains, IfOk, IfErr, IsErr, IsErrOf, OnOk, OnErr};
ghost use Rattle.schema_defs.specs.Faults.{Rises};
ghost use Rattle.schema_defs.specs.Texts.{IsLawful};

use crate::judge::{TextFault, Texts};
use crate::plain::PlainTexts;
use crate::schedule::Schedule;
use schema_defs::Format;

/// A judge that answers as a plain one does, but fails at the calls of given numbers.
#[derive(Drop)]
pub struct FailingTexts {
    inner: PlainTexts,
    schedule: Schedule,
}

impl FailingTexts {
    ghost use Rattle.schema_texts.specs.Table.{plain_relations};
    ghost use Rattle.schema_texts.specs.Failing.{failing_calls, failing_faults, failing_relations, next_call};

    /// A judge that answers as `inner` does, and fails at the calls of those numbers, counted from 0.
    pub fn new(inner: PlainTexts, failing: Vec<u64>) -> FailingTexts
        ensures relations { failing_relations result ≡ plain_relations inner }
        ensures failing { failing_calls result ≡ failing.items }
        ensures next { next_call result ≡ 0 }
        ensures faults { failing_faults result ≡ 0 }
    {
        FailingTexts {
            inner,
            schedule: Schedule::new(failing),
        }
    }
}

impl Texts for FailingTexts {
    ghost use Rattle.schema_texts.specs.Failing.{failing_calls, failing_faults, failing_relations, next_call};

    ghost relations = { failing_relations };

    ghost faults = { failing_faults };

    fn is_pattern(&mut self, pattern: &str) -> Result<bool, TextFault>
        ensures fails { IsErr result ↔ Contains (failing_calls self.old) (next_call self.old) }
        ensures cause { IfErr result (λ e. e ≡ TextFault.Failed) }
        ensures answer { IfOk result (λ b. b ≡ (failing_relations self.old).is_pattern pattern.now) }
        ensures keeps { failing_relations self.new ≡ failing_relations self.old }
        ensures calls { failing_calls self.new ≡ failing_calls self.old }
        ensures next { next_call self.new ≡ min (next_call self.old + 1) (2 ^ 64 - 1) }
        ensures fault { OnErr result (failing_faults self.new ≡ min (failing_faults self.old + 1) (2 ^ 64 - 1)) }
        ensures kept { failing_faults self.old ≤ failing_faults self.new }
        ensures quiet { OnOk result (failing_faults self.new ≡ failing_faults self.old) }
    {
        self.schedule.pass()?;
        self.inner.is_pattern(pattern)
    }

    fn has_pattern(&mut self, pattern: &str, text: &str) -> Result<bool, TextFault>
        ensures fails { IsErr result ↔ Contains (failing_calls self.old) (next_call self.old) }
        ensures cause { IfErr result (λ e. e ≡ TextFault.Failed) }
        ensures answer { IfOk result (λ b. b ≡ (failing_relations self.old).matches pattern.now text.now) }
        ensures keeps { failing_relations self.new ≡ failing_relations self.old }
        ensures calls { failing_calls self.new ≡ failing_calls self.old }
        ensures next { next_call self.new ≡ min (next_call self.old + 1) (2 ^ 64 - 1) }
        ensures fault { OnErr result (failing_faults self.new ≡ min (failing_faults self.old + 1) (2 ^ 64 - 1)) }
        ensures kept { failing_faults self.old ≤ failing_faults self.new }
        ensures quiet { OnOk result (failing_faults self.new ≡ failing_faults self.old) }
    {
        self.schedule.pass()?;
        self.inner.has_pattern(pattern, text)
    }

    fn has_format(&mut self, format: Format, text: &str) -> Result<bool, TextFault>
        ensures fails { IsErr result ↔ Contains (failing_calls self.old) (next_call self.old) }
        ensures cause { IfErr result (λ e. e ≡ TextFault.Failed) }
        ensures answer { IfOk result (λ b. b ≡ (failing_relations self.old).has_format format text.now) }
        ensures keeps { failing_relations self.new ≡ failing_relations self.old }
        ensures calls { failing_calls self.new ≡ failing_calls self.old }
        ensures next { next_call self.new ≡ min (next_call self.old + 1) (2 ^ 64 - 1) }
        ensures fault { OnErr result (failing_faults self.new ≡ min (failing_faults self.old + 1) (2 ^ 64 - 1)) }
        ensures kept { failing_faults self.old ≤ failing_faults self.new }
        ensures quiet { OnOk result (failing_faults self.new ≡ failing_faults self.old) }
    {
        self.schedule.pass()?;
        self.inner.has_format(format, text)
    }
}

/// The relations of a judge that fails at given calls are lawful.
pub fn failing_texts_are_lawful()
    ensures { (texts : FailingTexts) → IsLawful (⟦<FailingTexts as Texts>⟧.relations texts) }
{}
