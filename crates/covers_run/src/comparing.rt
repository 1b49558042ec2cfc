//! Whether the items of a new report read what those of an old one write.
ghost use Rattle.std.specs.Prelude.{◌≡◌, IfOk};
ghost use Rattle.schema_words.specs.Said.{said_of};
ghost use Rattle.pair_words.specs.Outcome.{CanCompare};
ghost use Rattle.model_evolve.specs.Answer.{table_in};
ghost use Rattle.model_evolve.specs.declared.node.Covered.TheVariants.{No, Yes};
ghost use Rattle.derive_model.specs.ModuleView.{items_in};
ghost use Rattle.typify_run.specs.Headline.{items_of};
ghost use Rattle.covers_run.specs.Compares.{Compares, IsAnswer, table_of};

use crate::page::{broken_page, covered_page};
use attr_parts::NoCase;
use derive_model::Module;
use model_evolve::{Broken, Covered, Mark, Node, covers};
use pair_words::Comparing;
use schema_words::Answer;
use std::alloc::{AllocError, Global};
use typify_run::Report;

/// What `covers` answers of two reports: as a page the numbers of items and the notes of both, and `covered`, where the new items read from root to root what the old
/// ones write. Else the same with the first pair that breaks a rule and the way to it, as a page that says no.
#[derive(Clone, Copy)]
pub struct Covers;

// The items of a report as they are read back.
fn module_of(alloc: Global, report: &Report) -> Result<Module<'_>, AllocError>
    ensures table { IfOk result (λ m. table_in m ≡ table_of report.now) }
    ensures items { IfOk result (λ m. items_in m ≡ items_of report.now) }
{
    match Module::new(alloc, &report.items, &report.conversions, &NoCase) {
        Ok(module) => Ok(module),
        Err(_) => Err(AllocError),
    }
}

fn compared(alloc: Global, old: &Report, new: &Report) -> Result<Covered, AllocError>
    requires old { CanCompare old.now }
    requires new { CanCompare new.now }
    ensures { IfOk result (IsAnswer old.now new.now) }
{
    let from = module_of(alloc, old)?;
    let to = module_of(alloc, new)?;
    let answer = covers(alloc, &from, &old.root, &to, &new.root)?;
    Ok(answer)
}

fn yes_of(alloc: Global, old: &Report, new: &Report) -> Result<Answer, AllocError>
    requires { IsAnswer old.now new.now Yes }
    ensures { IfOk result (λ a. Compares old.now new.now (said_of a)) }
{
    let page = covered_page(alloc, old, new)?;
    Ok(Answer::Page(page))
}

fn no_of(
    alloc: Global,
    old: &Report,
    new: &Report,
    old_node: &Node,
    new_node: &Node,
    broken: Broken,
    way: &Vec<Mark>,
) -> Result<Answer, AllocError>
    requires { IsAnswer old.now new.now (No old_node.now new_node.now broken way.now) }
    ensures { IfOk result (λ a. Compares old.now new.now (said_of a)) }
{
    let page = broken_page(alloc, old, new, old_node, new_node, broken, way)?;
    Ok(Answer::No(page))
}

fn answered(
    alloc: Global,
    old: &Report,
    new: &Report,
    covered: &Covered,
) -> Result<Answer, AllocError>
    requires { IsAnswer old.now new.now covered.now }
    ensures { IfOk result (λ a. Compares old.now new.now (said_of a)) }
{
    match covered {
        Covered::Yes => yes_of(alloc, old, new),
        Covered::No {
            old: old_node,
            new: new_node,
            broken,
            way,
        } => no_of(alloc, old, new, old_node, new_node, *broken, way),
    }
}

impl Comparing for Covers {
    ghost answers = { Compares };

    fn answer(&self, alloc: Global, old: &Report, new: &Report) -> Result<Answer, AllocError> {
        match compared(alloc, old, new) {
            Ok(covered) => answered(alloc, old, new, &covered),
            Err(_) => Err(AllocError),
        }
    }
}
