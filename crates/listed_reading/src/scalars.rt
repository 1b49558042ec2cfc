//! Values and trees.
ghost use Rattle.std.specs.Prelude.{◌≡◌, ◌≤◌, ◌∷◌, [], ℕ, Bool, IfOk, IsErrOf};
ghost use Rattle.std.specs.List.{list_any};
ghost use Rattle.schema_defs.specs.Faults.{Rises};
ghost use Rattle.json_value.specs.View.{kept_view};
ghost use Rattle.model_defs.specs.Model.{TagModel};
ghost use Rattle.entry_defs.specs.Entry.{reference, variants_of};
ghost use Rattle.entry_defs.specs.Layer.{contents_entry};
ghost use Rattle.tree_types.specs.View.{cases_of, contents_view, first_part, parts_of, table_view, target_view, tree_view, variants_view};
ghost use Rattle.listed_reading.specs.Followed.{following, takes_in};

use crate::atoms::{atom_takes, target_of};
use crate::led::led_to;
use crate::owners::{no_list, no_object};
use crate::tags::tag_takes;
use crate::wraps::wrap_takes;
use row_findings::is_null;
use schema_tree::{TextFault, Texts};
use serde_json::Value;
use tree_types::{ContentKind, FieldHead, Target, Tree, TreeTable, VariantHead};

/// Whether the tree takes the value, where so many references may be followed in the table, or more. It fails where memory runs out, or where
/// the judge of texts failed; one reference too many is answered by want of memory, and so is a list where the tree is one of lists, and an
/// object where it is one of objects or an enum with tags.
#[cycle(takes)]
#[tactic(auto, using(crate::proofs::Trees::atom_tree, crate::proofs::Trees::reference_tree, crate::proofs::Trees::one_known, crate::proofs::Trees::one_passed, crate::proofs::Trees::map_refused, crate::proofs::Trees::tuple_refused, crate::proofs::Trees::struct_refused, crate::proofs::Trees::enum_known, crate::proofs::Trees::enum_passed))]
pub fn takes_scalar<'d, 'k, T: Texts>(
    table: &TreeTable<'k>,
    left: usize,
    tree: &Tree<'d>,
    value: &Value,
    texts: &mut T,
) -> Result<bool, TextFault>
    ensures taken { IfOk result (λ b. (m : ℕ) → takes_in (following (table_view table.now) left m) (T.relations texts.old) (tree_view tree.now) (kept_view value.now) ≡ b) }
    ensures keeps { T.relations texts.new ≡ T.relations texts.old }
    ensures failed { IsErrOf result TextFault.Failed → Rises (T.faults texts.old) (T.faults texts.new) }
    ensures counts { T.faults texts.old ≤ T.faults texts.new }
{
    match tree {
        Tree::Atom(atom) => {
            if let Some(target) = target_of(atom) {
                let answer = follow(table, left, target, value, texts)?;
                return Ok(answer);
            }
            let answer = atom_takes(atom, value, texts)?;
            Ok(answer)
        }
        Tree::One(wrap, held) => {
            if let Some(answer) = wrap_takes(wrap, value, texts)? {
                return Ok(answer);
            }
            let answer = takes_scalar(table, left, held, value, texts)?;
            Ok(answer)
        }
        Tree::Map(_, _) => {
            no_object(value)?;
            Ok(false)
        }
        Tree::Tuple(_) => {
            no_list(value)?;
            Ok(false)
        }
        Tree::Struct {
            name: _,
            closed: _,
            fields: _,
            rest: _,
        } => {
            no_object(value)?;
            Ok(false)
        }
        Tree::Enum {
            name: _,
            closed: _,
            tag,
            variants,
        } => {
            if let Some(answer) = tag_takes(tag, variants, value)? {
                return Ok(answer);
            }
            let answer = some_takes(table, left, variants, value, texts)?;
            Ok(answer)
        }
    }
}

// Whether what the reference leads to takes the value.
#[cycle(takes)]
fn follow<'d, T: Texts>(
    table: &TreeTable<'d>,
    left: usize,
    target: &Target,
    value: &Value,
    texts: &mut T,
) -> Result<bool, TextFault>
    ensures taken { IfOk result (λ b. (m : ℕ) → takes_in (following (table_view table.now) left m) (T.relations texts.old) (reference (target_view target.now)) (kept_view value.now) ≡ b) }
    ensures keeps { T.relations texts.new ≡ T.relations texts.old }
    ensures failed { IsErrOf result TextFault.Failed → Rises (T.faults texts.old) (T.faults texts.new) }
    ensures counts { T.faults texts.old ≤ T.faults texts.new }
{
    if left == 0 {
        return Err(TextFault::Memory);
    }
    match led_to(table, target) {
        Some(tree) => {
            let answer = takes_scalar(table, left - 1, tree, value, texts)?;
            Ok(answer)
        }
        None => Ok(false),
    }
}

// Whether some variant takes the value.
#[cycle(takes)]
fn some_takes<'d, 'k, T: Texts>(
    table: &TreeTable<'k>,
    left: usize,
    variants: &Vec<(VariantHead<'d>, Vec<(FieldHead<'d>, Option<Tree<'d>>)>)>,
    value: &Value,
    texts: &mut T,
) -> Result<bool, TextFault>
    ensures taken { IfOk result (λ b. (m : ℕ) (tag : TagModel) (closed : Bool) →
        list_any (λ w. takes_in (following (table_view table.now) left m) (T.relations texts.old) (contents_entry closed w.contents) (kept_view value.now)) (variants_of (variants_view tag (cases_of variants.now.items))) ≡ b) }
    ensures keeps { T.relations texts.new ≡ T.relations texts.old }
    ensures failed { IsErrOf result TextFault.Failed → Rises (T.faults texts.old) (T.faults texts.new) }
    ensures counts { T.faults texts.old ≤ T.faults texts.new }
{
    for variant in variants {
        if variant_takes(table, left, variant.0.kind, &variant.1, value, texts)? {
            return Ok(true);
        }
    }
    Ok(false)
}

// Whether what a variant holds takes the value.
#[cycle(takes)]
#[tactic(auto, using(crate::proofs::Contents::unit_held, crate::proofs::Contents::tuple_held, crate::proofs::Contents::struct_held))]
fn variant_takes<'d, 'k, T: Texts>(
    table: &TreeTable<'k>,
    left: usize,
    kind: ContentKind,
    parts: &Vec<(FieldHead<'d>, Option<Tree<'d>>)>,
    value: &Value,
    texts: &mut T,
) -> Result<bool, TextFault>
    ensures taken { IfOk result (λ b. (m : ℕ) (closed : Bool) → takes_in (following (table_view table.now) left m) (T.relations texts.old) (contents_entry closed (contents_view kind (parts_of parts.now.items))) (kept_view value.now) ≡ b) }
    ensures keeps { T.relations texts.new ≡ T.relations texts.old }
    ensures failed { IsErrOf result TextFault.Failed → Rises (T.faults texts.old) (T.faults texts.new) }
    ensures counts { T.faults texts.old ≤ T.faults texts.new }
{
    match kind {
        ContentKind::Unit => Ok(is_null(value)),
        ContentKind::Newtype => {
            let answer = front_takes(table, left, parts, value, texts)?;
            Ok(answer)
        }
        ContentKind::Tuple => {
            no_list(value)?;
            Ok(false)
        }
        ContentKind::Struct => {
            no_object(value)?;
            Ok(false)
        }
    }
}

// Whether the first part takes the value; without one any is taken.
#[cycle(takes)]
#[tactic(auto, using(crate::proofs::Contents::none_first, crate::proofs::Contents::some_first))]
fn front_takes<'d, 'k, T: Texts>(
    table: &TreeTable<'k>,
    left: usize,
    parts: &Vec<(FieldHead<'d>, Option<Tree<'d>>)>,
    value: &Value,
    texts: &mut T,
) -> Result<bool, TextFault>
    ensures taken { IfOk result (λ b. (m : ℕ) → takes_in (following (table_view table.now) left m) (T.relations texts.old) (first_part (parts_of parts.now.items)) (kept_view value.now) ≡ b) }
    ensures keeps { T.relations texts.new ≡ T.relations texts.old }
    ensures failed { IsErrOf result TextFault.Failed → Rises (T.faults texts.old) (T.faults texts.new) }
    ensures counts { T.faults texts.old ≤ T.faults texts.new }
{
    match parts.first() {
        None => Ok(true),
        Some(part) => {
            let answer = part_takes(table, left, part, value, texts)?;
            Ok(answer)
        }
    }
}

#[cycle(takes)]
#[tactic(auto, using(crate::proofs::Contents::none_held, crate::proofs::Contents::tree_held, tree_types::proofs::Sizes::tree_in_part))]
fn part_takes<'d, 'k, T: Texts>(
    table: &TreeTable<'k>,
    left: usize,
    part: &(FieldHead<'d>, Option<Tree<'d>>),
    value: &Value,
    texts: &mut T,
) -> Result<bool, TextFault>
    ensures taken { IfOk result (λ b. (m : ℕ) → takes_in (following (table_view table.now) left m) (T.relations texts.old) (first_part (parts_of (part.now ∷ []))) (kept_view value.now) ≡ b) }
    ensures keeps { T.relations texts.new ≡ T.relations texts.old }
    ensures failed { IsErrOf result TextFault.Failed → Rises (T.faults texts.old) (T.faults texts.new) }
    ensures counts { T.faults texts.old ≤ T.faults texts.new }
{
    match &part.1 {
        None => Ok(true),
        Some(tree) => {
            let answer = takes_scalar(table, left, tree, value, texts)?;
            Ok(answer)
        }
    }
}
