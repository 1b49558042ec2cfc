//! What the items of a report take, as a schema.
ghost use Rattle.std.specs.Prelude.{IfErr, IfOk};
ghost use Rattle.serde_json.specs.View.{view};
ghost use Rattle.schema_words.specs.Said.{said_of};
ghost use Rattle.schema_words.specs.Outcome.{tells_line};
ghost use Rattle.model_describe.specs.declared.errors.DescribeError.TheVariants.{NotPlain};
ghost use Rattle.describe_run.specs.Answers.{Describes, IsDescribedBy, IsNotPlain};

use item_lines::item_line;
use model_describe::{DescribeError, describe};
use schema_tree::Fault;
use schema_words::{Answer, Answering};
use serde_json::Value;
use std::alloc::{AllocError, Global};
use typify_run::Report;
use value_texts::value_text;

/// What `describe` answers of a report: as a page the schema of exactly the values with i64 numbers that the root's type reads, indented; where the items
/// with it are no plain table the line `not plain NAME`, with the first item that keeps them from it, or `not plain` where the root alone does.
#[derive(Clone, Copy)]
pub struct Describing;

// The value that describes the items of a report.
fn described(alloc: Global, report: &Report) -> Result<Value, DescribeError>
    ensures described { IfOk result (λ v. IsDescribedBy report.now (view v)) }
    ensures refused { IfErr result (λ e. IsNotPlain report.now e) }
{
    match describe(alloc, &report.items, &report.conversions, &report.root) {
        Ok(value) => Ok(value),
        Err(refused) => Err(refused),
    }
}

fn page_of(alloc: Global, report: &Report, value: &Value) -> Result<Answer, AllocError>
    requires { IsDescribedBy report.now (view value.now) }
    ensures { IfOk result (λ a. Describes report.now (said_of a)) }
{
    let _ = report;
    let text = value_text(alloc, value)?;
    Ok(Answer::Page(text))
}

fn no_of(alloc: Global, report: &Report, item: Option<u32>) -> Result<Answer, AllocError>
    requires { IsNotPlain report.now (NotPlain item) }
    ensures { IfOk result (λ a. Describes report.now (said_of a)) }
{
    let line = item_line(alloc, "not plain", &report.items, item)?;
    Ok(Answer::No(line))
}

// What is said where there is no description.
fn refused_of(alloc: Global, report: &Report, refused: DescribeError) -> Result<Answer, AllocError>
    requires { IsNotPlain report.now refused }
    ensures { IfOk result (λ a. Describes report.now (said_of a)) }
{
    match refused {
        DescribeError::NotPlain { item } => no_of(alloc, report, item),
        DescribeError::Memory => Err(AllocError),
    }
}

impl Answering for Describing {
    ghost answers = { λ d. Describes };

    ghost tells = { tells_line };

    fn answer(
        &self,
        alloc: Global,
        _schema: &Value,
        report: &Report,
    ) -> Result<Answer, AllocError> {
        match described(alloc, report) {
            Ok(value) => page_of(alloc, report, &value),
            Err(refused) => refused_of(alloc, report, refused),
        }
    }

    fn tell(&self, alloc: Global, _schema: &Value, fault: &Fault) -> Result<String, AllocError> {
        fault.line(alloc)
    }
}
