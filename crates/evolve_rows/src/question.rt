//! What is asked of a type through boxes and newtypes: whether it leads to an option, and whether its innermost type is a scalar.
ghost use Rattle.std.specs.Prelude.{◌≡◌, Some, option_map};
ghost use Rattle.model_defs.specs.Reads.{allowed, leads_to_option};
ghost use Rattle.value_models.specs.ContainerView.{container_view};
ghost use Rattle.value_models.specs.TypeView.{type_view};
ghost use Rattle.evolve_defs.specs.Steps.{is_scalar};
ghost use Rattle.evolve_rows.specs.PlaceView.{table_view};
ghost use Rattle.evolve_rows.specs.Questions.{answer_view, container_answer, inner_of, is_optional, is_scalar_asked, item_answer, type_answer, type_asked};

use crate::asked::newtype_of;
use crate::place::Table;
use value_models::{Container, ValueType};

#[derive(Clone, Copy)]
pub(crate) enum Question {
    /// Through transparent newtypes alone.
    Optional,
    Scalar,
}

/// An item, or the answer of a type that is none.
#[derive(Clone, Copy)]
pub(crate) enum Answer<'a> {
    Item(&'a str),
    Known(bool),
}

fn is_optional(question: Question) -> bool
    ensures { result ≡ is_optional question }
{
    match question {
        Question::Optional => true,
        Question::Scalar => false,
    }
}

fn is_scalar_asked(question: Question) -> bool
    ensures { result ≡ is_scalar_asked question }
{
    match question {
        Question::Optional => false,
        Question::Scalar => true,
    }
}

fn asked(question: Question, ty: &ValueType) -> Answer<'_>
    ensures { answer_view result ≡ type_asked question (type_view ty.now) }
{
    match ty {
        ValueType::Boolean
        | ValueType::Integer { .. }
        | ValueType::Text
        | ValueType::Native(_)
        | ValueType::Unit => Answer::Known(is_scalar_asked(question)),
        ValueType::Optional(_) => Answer::Known(is_optional(question)),
        ValueType::Boxed(inner) => asked(question, inner),
        ValueType::Any
        | ValueType::List(_)
        | ValueType::Set(_)
        | ValueType::Map(_, _)
        | ValueType::Tuple(_)
        | ValueType::Array(_, _)
        | ValueType::Outside => Answer::Known(false),
        ValueType::Item(name) => Answer::Item(name.as_str()),
    }
}

// The type that is asked in place of an item's.
fn inner_of(question: Question, container: &Container) -> Option<&ValueType>
    ensures { option_map (λ t. type_view t.now) result ≡ inner_of question (container_view container.now) }
{
    if is_optional(question) && !container.transparent {
        return None;
    }
    newtype_of(&container.body)
}

// Where so many items may be entered.
#[cycle(answers)]
fn type_answer(table: &Table<'_>, question: Question, left: usize, ty: &ValueType) -> bool
    ensures { result ≡ type_answer question (item_answer question (table_view table.now).models left) (type_view ty.now) }
{
    match asked(question, ty) {
        Answer::Item(name) => item_answer(table, question, left, name),
        Answer::Known(answer) => answer,
    }
}

#[cycle(answers)]
fn item_answer(table: &Table<'_>, question: Question, left: usize, name: &str) -> bool
    ensures { result ≡ item_answer question (table_view table.now).models left name.now }
{
    if left == 0 {
        return false;
    }
    match table.models.containers.named(name) {
        Some(container) => container_answer(table, question, left - 1, container),
        None => false,
    }
}

#[cycle(answers)]
fn container_answer(
    table: &Table<'_>,
    question: Question,
    left: usize,
    container: &Container,
) -> bool
    ensures { result ≡ container_answer question (item_answer question (table_view table.now).models left) (Some (container_view container.now)) }
{
    match inner_of(question, container) {
        Some(inner) => type_answer(table, question, left, inner),
        None => false,
    }
}

// Where all items may be entered.
fn fresh_answer(table: &Table<'_>, question: Question, ty: &ValueType) -> bool
    ensures { result ≡ type_answer question (item_answer question (table_view table.now).models (allowed (table_view table.now).models)) (type_view ty.now) }
{
    type_answer(table, question, table.models.containers.count() + 1, ty)
}

/// Whether a type leads to an option: it is one, or through boxes and transparent newtypes is one.
pub(crate) fn leads_to_option(table: &Table<'_>, ty: &ValueType) -> bool
    ensures { result ≡ leads_to_option (table_view table.now).models (type_view ty.now) }
{
    fresh_answer(table, Question::Optional, ty)
}

/// Whether the innermost type, through boxes and newtypes, is a scalar.
pub(crate) fn is_scalar(table: &Table<'_>, ty: &ValueType) -> bool
    ensures { result ≡ is_scalar (table_view table.now).models (type_view ty.now) }
{
    fresh_answer(table, Question::Scalar, ty)
}
