//! What is answered of two reports.
ghost use Rattle.std.specs.Prelude.{IfOk};
ghost use Rattle.schema_words.specs.Said.{Said, said_of};
ghost use Rattle.pair_words.specs.Outcome.{CanCompare};
ghost use Rattle.typify_run.specs.declared.report.Report.{Report};

use schema_words::Answer;
use std::alloc::{AllocError, Global};
use typify_run::Report;

/// What a word answers of the reports on two schemas.
pub trait Comparing {
    // which answers may be given of two reports
    ghost answers: { Report → Report → Said → Type 0 };

    /// An answer. Of both reports no item reaches itself at one value, and the root's type names items and built-in types alone. Fails where
    /// memory runs out.
    fn answer(&self, alloc: Global, old: &Report, new: &Report) -> Result<Answer, AllocError>
        requires old { CanCompare old.now }
        requires new { CanCompare new.now }
        ensures { IfOk result (λ a. answers old.now new.now (said_of a)) };
}
