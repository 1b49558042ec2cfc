//! Items described, and the description examined.
ghost use Rattle.std.specs.Prelude.{◌≡◌, ◌≤◌, Some, map, IfErr, IfOk};
ghost use Rattle.syntax_trees.specs.Item.{item_view};
ghost use Rattle.syntax_trees.specs.View.{ty as ty_view};
ghost use Rattle.serde_json.specs.View.{view};
ghost use Rattle.json_value.specs.View.{kept_view};
ghost use Rattle.conversion_table.specs.Conversions.{conversions_view};
ghost use Rattle.type_spellings.specs.Types.{type_of};
ghost use Rattle.schema_defs.specs.Schema.{Document as DocumentD};
ghost use Rattle.schema_defs.specs.declared.Setting.TheVariants.{Strict};
ghost use Rattle.schema_defs.specs.Read.{document_of};
ghost use Rattle.schema_defs.specs.Counts.{nodes};
ghost use Rattle.model_describe.specs.Described.{IsPlainItems};
ghost use Rattle.model_redescribe.specs.Redescribed.{IsExamined, IsRedescribed, IsUnexamined, IsUnredescribed};

use crate::errors::RedescribeError;
use conversion_table::Conversions;
use model_describe::{DescribeError, describe};
use schema_counts::nodes_of;
use schema_tree::{Document, Texts};
use serde_json::Value;
use std::alloc::{AllocError, Global};
use syntax_trees::{DeriveInput, Ty};
use typify_run::{Report, examine};

// There is no memory for more schemas than a u32 counts.
fn as_depth(count: u64) -> Result<u32, AllocError>
    ensures { IfOk result (λ n. n ≡ count) }
{
    match u32::try_from(count) {
        Ok(depth) => Ok(depth),
        Err(_) => Err(AllocError),
    }
}

// How many schemas stand in the document that the value is read as.
#[tactic(auto, using(crate::proofs::Counted::of_document))]
fn depth_of(alloc: Global, description: &Value) -> Result<u32, AllocError>
    ensures count { IfOk result (λ n. (d : DocumentD) → document_of Strict (kept_view description.now) ≡ Some d → n ≡ nodes d) }
    ensures some { IfOk result (λ n. 1 ≤ n) }
{
    match Document::read(alloc, description) {
        Ok(document) => {
            let count = nodes_of(document.parts())?;
            let depth = as_depth(count)?;
            Ok(depth)
        }
        Err(_) => Err(AllocError),
    }
}

// The value examined at its own count of schemas.
fn examined<T: Texts>(
    alloc: Global,
    description: &Value,
    values: &[Value],
    texts: &mut T,
) -> Result<Report, RedescribeError>
    ensures report { IfOk result (IsExamined (T.relations texts.old) (kept_view description.now) (map view values.now)) }
    ensures refused { IfErr result (IsUnexamined (T.faults texts.old) (T.faults texts.new) (kept_view description.now) (map view values.now)) }
    ensures keeps { T.relations texts.new ≡ T.relations texts.old }
    ensures counts { T.faults texts.old ≤ T.faults texts.new }
{
    match depth_of(alloc, description) {
        Ok(depth) => match examine(alloc, description, depth, values, texts) {
            Ok(report) => Ok(report),
            Err(fault) => Err(RedescribeError::Examine(fault)),
        },
        Err(_) => Err(RedescribeError::Describe(DescribeError::Memory)),
    }
}

/// The items described, and the description examined at its own count of schemas, with a verdict for each value. Of a plain
/// table there is no note, the items of the report read exactly the small values that the table which was handed in reads,
/// and each verdict on a small value says whether it does. Refused are items with a root that have no description, by the
/// causes of `describe`; a number of a value that isn't an i64; a failure of the judge of texts; and want of memory.
#[tactic(auto, using(crate::proofs::Told::unredescribed))]
pub fn redescribe<T: Texts>(
    alloc: Global,
    items: &[DeriveInput],
    conversions: &Conversions,
    root: &Ty,
    values: &[Value],
    texts: &mut T,
) -> Result<Report, RedescribeError>
    ensures plain { IfOk result (λ _. IsPlainItems (conversions_view conversions.now) (map item_view items.now) (type_of (ty_view root.now))) }
    ensures report { IfOk result (IsRedescribed (conversions_view conversions.now) (map item_view items.now) (type_of (ty_view root.now)) (T.relations texts.old) (map view values.now)) }
    ensures refused { IfErr result (IsUnredescribed (conversions_view conversions.now) (map item_view items.now) (type_of (ty_view root.now)) (T.faults texts.old) (T.faults texts.new) (map view values.now)) }
    ensures keeps { T.relations texts.new ≡ T.relations texts.old }
    ensures counts { T.faults texts.old ≤ T.faults texts.new }
{
    match describe(alloc, items, conversions, root) {
        Ok(description) => match examined(alloc, &description, values, texts) {
            Ok(report) => Ok(report),
            Err(error) => Err(error),
        },
        Err(error) => Err(RedescribeError::Describe(error)),
    }
}
