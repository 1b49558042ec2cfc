//! A value that the items of a report take, or that there is none.
ghost use Rattle.std.specs.Prelude.{Some, None, option_map, IfErr, IfOk};
ghost use Rattle.json_value.specs.View.{kept_view};
ghost use Rattle.schema_words.specs.Said.{said_of};
ghost use Rattle.schema_words.specs.Outcome.{tells_line};
ghost use Rattle.example_values.specs.declared.errors.ExampleError.TheVariants.{Outside};
ghost use Rattle.example_run.specs.Answers.{Exemplifies, IsAnswered, IsNoExample};

use attr_parts::NoCase;
use derive_model::Module;
use item_lines::item_line;
use model_example::{ExampleError, example};
use schema_tree::Fault;
use schema_words::{Answer, Answering};
use serde_json::Value;
use std::alloc::{AllocError, Global};
use typify_run::Report;
use value_texts::value_text;

/// What `example` answers of a report: as a page a value with i64 numbers that the root's type reads, indented; the line `none` where it reads no such
/// value; and where that can't be told the line `outside NAME`, with the first item that keeps it from being told, or `outside` where the root itself does.
#[derive(Clone, Copy)]
pub struct Exemplifying;

// The example of the root's type. The items of a report make a module.
fn exemplified(alloc: Global, report: &Report) -> Result<Option<Value>, ExampleError>
    ensures answered { IfOk result (λ o. IsAnswered report.now (option_map kept_view o)) }
    ensures refused { IfErr result (λ e. IsNoExample report.now e) }
{
    match Module::new(alloc, &report.items, &report.conversions, &NoCase) {
        Ok(module) => match example(alloc, &module, &report.root) {
            Ok(made) => Ok(made),
            Err(refused) => Err(refused),
        },
        Err(_) => Err(ExampleError::Memory),
    }
}

fn page_of(alloc: Global, report: &Report, value: &Value) -> Result<Answer, AllocError>
    requires { IsAnswered report.now (Some (kept_view value.now)) }
    ensures { IfOk result (λ a. Exemplifies report.now (said_of a)) }
{
    let _ = report;
    let text = value_text(alloc, value)?;
    Ok(Answer::Page(text))
}

fn none_of(alloc: Global, report: &Report) -> Result<Answer, AllocError>
    requires { IsAnswered report.now None }
    ensures { IfOk result (λ a. Exemplifies report.now (said_of a)) }
{
    let _ = report;
    let line = String::from_str(alloc, "none\n")?;
    Ok(Answer::No(line))
}

// What is said of an example, or of there being none.
fn made_of(alloc: Global, report: &Report, made: &Option<Value>) -> Result<Answer, AllocError>
    requires { IsAnswered report.now (option_map kept_view made.now) }
    ensures { IfOk result (λ a. Exemplifies report.now (said_of a)) }
{
    match made {
        Some(value) => page_of(alloc, report, value),
        None => none_of(alloc, report),
    }
}

fn outside_of(alloc: Global, report: &Report, item: Option<u32>) -> Result<Answer, AllocError>
    requires { IsNoExample report.now (Outside item) }
    ensures { IfOk result (λ a. Exemplifies report.now (said_of a)) }
{
    let line = item_line(alloc, "outside", &report.items, item)?;
    Ok(Answer::No(line))
}

// What is said where it isn't told whether there is an example.
fn refused_of(alloc: Global, report: &Report, refused: ExampleError) -> Result<Answer, AllocError>
    requires { IsNoExample report.now refused }
    ensures { IfOk result (λ a. Exemplifies report.now (said_of a)) }
{
    match refused {
        ExampleError::Outside { item } => outside_of(alloc, report, item),
        ExampleError::Memory => Err(AllocError),
    }
}

impl Answering for Exemplifying {
    ghost answers = { λ d. Exemplifies };

    ghost tells = { tells_line };

    fn answer(
        &self,
        alloc: Global,
        _schema: &Value,
        report: &Report,
    ) -> Result<Answer, AllocError> {
        match exemplified(alloc, report) {
            Ok(made) => made_of(alloc, report, &made),
            Err(refused) => refused_of(alloc, report, refused),
        }
    }

    fn tell(&self, alloc: Global, _schema: &Value, fault: &Fault) -> Result<String, AllocError> {
        fault.line(alloc)
    }
}
