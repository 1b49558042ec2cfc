//! Values and tags of enums.
ghost use Rattle.std.specs.Prelude.{◌≡◌, ℕ, List, Bool, IfErr, IfOk, unwrap_or};
ghost use Rattle.std.specs.List.{list_any};
ghost use Rattle.schema_defs.specs.Texts.{Relations};
ghost use Rattle.json_value.specs.View.{kept_view};
ghost use Rattle.model_defs.specs.Model.{external_tag};
ghost use Rattle.entry_defs.specs.Entry.{item, enum_shape, variants_of};
ghost use Rattle.entry_defs.specs.Layer.{contents_entry, is_unit as is_unit_of, is_unit_named, variant_named};
ghost use Rattle.row_findings.specs.View.{tag_view};
ghost use Rattle.tree_types.specs.View.{Parts, cases_of, contents_view, variants_view};
ghost use Rattle.listed_reading.specs.Followed.{Followed, takes_in};

use crate::owners::no_object;
use row_findings::TagRow;
use schema_tree::TextFault;
use serde_json::Value;
use tree_parts::as_text;
use tree_types::{ContentKind, FieldHead, Tree, VariantHead};

/// Whether the contents are none. It takes no memory.
pub fn is_unit(kind: ContentKind) -> bool
    ensures { (ps : Parts) → result ≡ is_unit_of (contents_view kind ps) }
{
    match kind {
        ContentKind::Unit => true,
        ContentKind::Newtype => false,
        ContentKind::Tuple => false,
        ContentKind::Struct => false,
    }
}

// Whether the first variant of that name holds nothing.
fn names_unit<'d>(
    variants: &Vec<(VariantHead<'d>, Vec<(FieldHead<'d>, Option<Tree<'d>>)>)>,
    text: &str,
) -> bool
    ensures { result ≡ is_unit_named (variant_named text.now (variants_of (variants_view external_tag (cases_of variants.now.items)))) }
{
    for variant in variants {
        if text == variant.0.label.wanted {
            return is_unit(variant.0.kind);
        }
    }
    false
}

// A text is the name of a variant that holds nothing.
#[tactic(auto, using(crate::proofs::Tagged::external_named, crate::proofs::Tagged::external_refused))]
fn external_takes<'d>(
    variants: &Vec<(VariantHead<'d>, Vec<(FieldHead<'d>, Option<Tree<'d>>)>)>,
    value: &Value,
) -> Result<bool, TextFault>
    ensures taken { IfOk result (λ b. (t : Followed) (r : Relations) (n : List ℕ) (closed : Bool) → takes_in t r (item n (enum_shape closed external_tag (variants_view external_tag (cases_of variants.now.items)))) (kept_view value.now) ≡ b) }
    ensures memory { IfErr result (λ e. e ≡ TextFault.Memory) }
{
    match as_text(value) {
        Some(text) => Ok(names_unit(variants, text)),
        None => {
            no_object(value)?;
            Ok(false)
        }
    }
}

/// What an enum says of the value by its tag, or nothing where one of its variants has to take it.
#[tactic(auto, using(crate::proofs::Forms::internal_refused, crate::proofs::Forms::adjacent_refused, crate::proofs::Tagged::untagged_passed))]
pub fn tag_takes<'d>(
    tag: &TagRow<'d>,
    variants: &Vec<(VariantHead<'d>, Vec<(FieldHead<'d>, Option<Tree<'d>>)>)>,
    value: &Value,
) -> Result<Option<bool>, TextFault>
    ensures taken { IfOk result (λ o. (t : Followed) (r : Relations) (n : List ℕ) (closed : Bool) →
        let ws = variants_view (tag_view tag.now) (cases_of variants.now.items) in
        takes_in t r (item n (enum_shape closed (tag_view tag.now) ws)) (kept_view value.now) ≡ unwrap_or o (list_any (λ w. takes_in t r (contents_entry closed w.contents) (kept_view value.now)) (variants_of ws))) }
    ensures memory { IfErr result (λ e. e ≡ TextFault.Memory) }
{
    match tag {
        TagRow::External => {
            let answer = external_takes(variants, value)?;
            Ok(Some(answer))
        }
        TagRow::Internal(_) => {
            no_object(value)?;
            Ok(Some(false))
        }
        TagRow::Adjacent(_, _) => {
            no_object(value)?;
            Ok(Some(false))
        }
        TagRow::Untagged => Ok(None),
    }
}
