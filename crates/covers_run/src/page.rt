//! The pages of `covers`.
ghost use Rattle.std.specs.Prelude.{◌≡◌, ◌++◌, IfOk, OnOk, codes, string_bytes};
ghost use Rattle.json.specs.Print.{quoted};
ghost use Rattle.evolve_ways.specs.Texts.{way_text as way_text_of};
ghost use Rattle.model_evolve.specs.WayView.{way_view};
ghost use Rattle.typify_run.specs.Headline.{items_of};
ghost use Rattle.typify_run.specs.Page.{end_line};
ghost use Rattle.covers_run.specs.Page.{broken_line as broken_line_of, broken_page, covered_page, node_text as node_text_of, rule_text};

use crate::head::pair_head;
use crate::nodes::node_text;
use model_evolve::{Broken, Mark, Node, way_text};
use schema_tree::json_string;
use std::alloc::{AllocError, Global};
use typify_run::Report;

fn rule_text(broken: Broken) -> &'static str
    ensures { result.now ≡ rule_text broken }
{
    match broken {
        Broken::Kind => "Kind",
        Broken::Range => "Range",
        Broken::Rule => "Rule",
        Broken::Length => "Length",
        Broken::Tag => "Tag",
        Broken::Variant => "Variant",
        Broken::Missing => "Missing",
        Broken::Unknown => "Unknown",
        Broken::Twice => "Twice",
        Broken::Rest => "Rest",
    }
}

// What a report's items are named by, as a JSON string.
fn quoted_node(alloc: Global, report: &Report, node: &Node) -> Result<String, AllocError>
    ensures { IfOk result (λ s. string_bytes s ≡ quoted (node_text_of (items_of report.now) node.now)) }
{
    let text = node_text(alloc, &report.items, node)?;
    let quoted = json_string(alloc, &text)?;
    Ok(quoted)
}

// The way to a pair, as a JSON string.
fn quoted_way(alloc: Global, way: &Vec<Mark>) -> Result<String, AllocError>
    ensures { IfOk result (λ s. string_bytes s ≡ quoted (way_text_of (way_view way.now.items))) }
{
    let text = way_text(alloc, way)?;
    let quoted = json_string(alloc, &text)?;
    Ok(quoted)
}

fn push_part(line: &mut String, part: &str) -> Result<(), AllocError>
    ensures { OnOk result (string_bytes line.new ≡ string_bytes line.old ++ (codes " " ++ part.now)) }
{
    line.push_str(" ")?;
    line.push_str(part)?;
    Ok(())
}

fn told_line(
    alloc: Global,
    rule: &str,
    place: &String,
    from: &String,
    to: &String,
) -> Result<String, AllocError>
    ensures { IfOk result (λ s. string_bytes s ≡ codes "broken " ++ rule.now ++ codes " " ++ string_bytes place.now ++ codes " " ++ string_bytes from.now ++ codes " " ++ string_bytes to.now ++ end_line) }
{
    let mut line = String::from_str(alloc, "broken")?;
    push_part(&mut line, rule)?;
    push_part(&mut line, place)?;
    push_part(&mut line, from)?;
    push_part(&mut line, to)?;
    line.push_str("\n")?;
    Ok(line)
}

fn broken_line(
    alloc: Global,
    old: &Report,
    new: &Report,
    old_node: &Node,
    new_node: &Node,
    broken: Broken,
    way: &Vec<Mark>,
) -> Result<String, AllocError>
    ensures { IfOk result (λ s. string_bytes s ≡ broken_line_of old.now new.now old_node.now new_node.now broken way.now.items) }
{
    let place = quoted_way(alloc, way)?;
    let from = quoted_node(alloc, old, old_node)?;
    let to = quoted_node(alloc, new, new_node)?;
    let line = told_line(alloc, rule_text(broken), &place, &from, &to)?;
    Ok(line)
}

/// The page that says yes.
pub(crate) fn covered_page(alloc: Global, old: &Report, new: &Report) -> Result<String, AllocError>
    ensures { IfOk result (λ s. string_bytes s ≡ covered_page old.now new.now) }
{
    let mut page = pair_head(alloc, old, new)?;
    page.push_str("covered\nend\n")?;
    Ok(page)
}

/// The page that says no.
pub(crate) fn broken_page(
    alloc: Global,
    old: &Report,
    new: &Report,
    old_node: &Node,
    new_node: &Node,
    broken: Broken,
    way: &Vec<Mark>,
) -> Result<String, AllocError>
    ensures { IfOk result (λ s. string_bytes s ≡ broken_page old.now new.now old_node.now new_node.now broken way.now.items) }
{
    let mut page = pair_head(alloc, old, new)?;
    let line = broken_line(alloc, old, new, old_node, new_node, broken, way)?;
    page.push_str(&line)?;
    page.push_str("end\n")?;
    Ok(page)
}
