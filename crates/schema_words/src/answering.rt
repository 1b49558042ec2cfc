//! What is answered of a schema and the report on it, and what is told of its fault.
ghost use Rattle.std.specs.Prelude.{IfOk, List, ℕ, string_bytes};
ghost use Rattle.serde_json.specs.Data.{Data};
ghost use Rattle.serde_json.specs.View.{view};
ghost use Rattle.schema_tree.specs.declared.fault.Fault.{Fault};
ghost use Rattle.schema_words.specs.Said.{Said, said_of};
ghost use Rattle.typify_run.specs.declared.report.Report.{Report};

use schema_tree::Fault;
use serde_json::Value;
use std::alloc::{AllocError, Global};
use typify_run::Report;

/// An answer, as it is printed.
#[derive(Drop)]
pub enum Answer {
    /// A page.
    Page(String),
    /// A line that says that there is none.
    No(String),
}

/// What a word answers.
pub trait Answering {
    // which answers may be given of a schema and the report on it
    ghost answers: { Data → Report → Said → Type 0 };

    // what may be told of a schema and its fault
    ghost tells: { Data → Fault → List ℕ → Type 0 };

    /// An answer. Fails where memory runs out.
    fn answer(&self, alloc: Global, schema: &Value, report: &Report) -> Result<Answer, AllocError>
        ensures { IfOk result (λ a. answers (view schema.now) report.now (said_of a)) };

    /// What is told of the fault. Fails where memory runs out.
    fn tell(&self, alloc: Global, schema: &Value, fault: &Fault) -> Result<String, AllocError>
        ensures { IfOk result (λ s. tells (view schema.now) fault.now (string_bytes s)) };
}
