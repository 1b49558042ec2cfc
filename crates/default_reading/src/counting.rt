//! How many stated defaults stand in trees.
ghost use Rattle.std.specs.Prelude.{◌≡◌, ◌+◌, IfErr, IfOk, option_map};
ghost use Rattle.entry_defs.specs.Entry.{no_fields};
ghost use Rattle.row_findings.specs.View.{state_view};
ghost use Rattle.tree_types.specs.View.{contents_view, fields_view, parts_of, table_view, tree_view};
ghost use Rattle.default_defs.specs.Supplied.{stated_by, stated_in, stated_in_contents, stated_in_entries, stated_in_fields, stated_in_targets, stated_in_variants};
ghost use Rattle.default_reading.specs.Seen.{entry_of, fields_in, kept, places_in};
ghost use Rattle.default_reading.specs.Counts.{stated_in_part, stated_in_cases};

use crate::parts::{front_part, rest_tree};
use row_findings::FieldState;
use schema_tree::TextFault;
use tree_types::{ContentKind, FieldHead, Tree, TreeTable, VariantHead};

/// The sum, where it is held.
pub fn sum(one: usize, other: usize) -> Result<usize, TextFault>
    ensures answer { IfOk result (λ n. n ≡ one + other) }
    ensures memory { IfErr result (λ e. e ≡ TextFault.Memory) }
{
    match one.checked_add(other) {
        Some(total) => Ok(total),
        None => Err(TextFault::Memory),
    }
}

fn count_state<'d>(state: FieldState<'d>) -> usize
    ensures { result ≡ stated_by (state_view state.entry) }
{
    match state {
        FieldState::Required => 0,
        FieldState::Optional => 0,
        FieldState::Stated(_) => 1,
    }
}

/// How many stand in the tree.
#[cycle(counting)]
#[tactic(auto, using(crate::proofs::Counted::atom_counts, crate::proofs::Counted::one_counts, crate::proofs::Counted::map_counts, crate::proofs::Counted::tuple_counts, crate::proofs::Counted::struct_counts, crate::proofs::Counted::enum_counts))]
pub fn count_tree<'d>(tree: &Tree<'d>) -> Result<usize, TextFault>
    ensures answer { IfOk result (λ n. n ≡ stated_in (tree_view tree.now)) }
    ensures memory { IfErr result (λ e. e ≡ TextFault.Memory) }
{
    match tree {
        Tree::Atom(_) => Ok(0),
        Tree::One(_, held) => {
            let count = count_tree(held)?;
            Ok(count)
        }
        Tree::Map(keys, held) => {
            let of_keys = count_tree(keys)?;
            let of_held = count_tree(held)?;
            let total = sum(of_keys, of_held)?;
            Ok(total)
        }
        Tree::Tuple(places) => {
            let count = count_places(places)?;
            Ok(count)
        }
        Tree::Struct {
            name: _,
            closed: _,
            fields,
            rest,
        } => {
            let of_fields = count_fields(fields)?;
            let rest = rest_tree(rest);
            let of_rest = count_maybe(rest)?;
            let total = sum(of_fields, of_rest)?;
            Ok(total)
        }
        Tree::Enum {
            name: _,
            closed: _,
            tag: _,
            variants,
        } => {
            let count = count_variants(variants)?;
            Ok(count)
        }
    }
}

#[cycle(counting)]
fn count_maybe<'d>(tree: Option<&Tree<'d>>) -> Result<usize, TextFault>
    ensures answer { IfOk result (λ n. n ≡ stated_in (entry_of (option_map (λ x. x.now) tree.entry))) }
    ensures memory { IfErr result (λ e. e ≡ TextFault.Memory) }
{
    match tree {
        Some(tree) => {
            let count = count_tree(tree)?;
            Ok(count)
        }
        None => Ok(0),
    }
}

#[cycle(counting)]
fn count_places<'d>(places: &[(FieldHead<'d>, Option<Tree<'d>>)]) -> Result<usize, TextFault>
    ensures answer { IfOk result (λ n. n ≡ stated_in_entries (places_in places.now)) }
    ensures memory { IfErr result (λ e. e ≡ TextFault.Memory) }
{
    let mut count = 0;
    for place in places {
        let one = count_maybe(place.1.as_ref())?;
        count = sum(count, one)?;
    }
    Ok(count)
}

#[cycle(counting)]
fn count_fields<'d>(fields: &[(FieldHead<'d>, Option<Tree<'d>>)]) -> Result<usize, TextFault>
    ensures answer { IfOk result (λ n. n ≡ stated_in_fields (fields_view (parts_of fields.now) no_fields)) }
    ensures memory { IfErr result (λ e. e ≡ TextFault.Memory) }
{
    let mut count = 0;
    for field in fields {
        let one = count_field(field)?;
        count = sum(count, one)?;
    }
    Ok(count)
}

#[cycle(counting)]
fn count_field<'d>(field: &(FieldHead<'d>, Option<Tree<'d>>)) -> Result<usize, TextFault>
    ensures answer { IfOk result (λ n. n ≡ stated_in_part field.now) }
    ensures memory { IfErr result (λ e. e ≡ TextFault.Memory) }
{
    match &field.1 {
        Some(tree) => {
            let count = count_tree(tree)?;
            let total = sum(count_state(field.0.state), count)?;
            Ok(total)
        }
        None => Ok(0),
    }
}

#[cycle(counting)]
fn count_variants<'d>(
    variants: &[(VariantHead<'d>, Vec<(FieldHead<'d>, Option<Tree<'d>>)>)],
) -> Result<usize, TextFault>
    ensures answer { IfOk result (λ n. n ≡ stated_in_cases variants.now) }
    ensures memory { IfErr result (λ e. e ≡ TextFault.Memory) }
{
    let mut count = 0;
    for variant in variants {
        let one = count_contents(variant.0.kind, &variant.1)?;
        count = sum(count, one)?;
    }
    Ok(count)
}

#[cycle(counting)]
#[tactic(auto, using(crate::proofs::Counted::front_counts))]
fn count_contents<'d>(
    kind: ContentKind,
    parts: &[(FieldHead<'d>, Option<Tree<'d>>)],
) -> Result<usize, TextFault>
    ensures answer { IfOk result (λ n. n ≡ stated_in_contents (contents_view kind (parts_of parts.now))) }
    ensures memory { IfErr result (λ e. e ≡ TextFault.Memory) }
{
    match kind {
        ContentKind::Unit => Ok(0),
        ContentKind::Newtype => {
            let front = front_part(parts);
            let count = count_maybe(front)?;
            Ok(count)
        }
        ContentKind::Tuple => {
            let count = count_places(parts)?;
            Ok(count)
        }
        ContentKind::Struct => {
            let count = count_fields(parts)?;
            Ok(count)
        }
    }
}

/// How many stand in the trees that references lead to.
pub fn count_targets<'k>(table: &TreeTable<'k>) -> Result<usize, TextFault>
    ensures answer { IfOk result (λ n. n ≡ stated_in_targets (table_view table.now).targets) }
    ensures memory { IfErr result (λ e. e ≡ TextFault.Memory) }
{
    let mut count = 0;
    for target in &table.targets {
        let one = count_tree(&target.1)?;
        count = sum(count, one)?;
    }
    Ok(count)
}
